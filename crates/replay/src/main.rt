// Replays single-record calls: the worked records, calls that are refused, and a random list against each bank's lone run.
#![tactic(auto)]

ghost use Rattle.std.specs.Prelude.{◌≡◌, length};

mod arguments;
mod banks;
mod drawn;
mod list;
mod print;
mod refused;
mod worked;

use disk::load_or_fail;
use std::io;
use tables::Tables;

// A ledger of zeros.
fn empty_ledger() -> [u8; 32768]
    ensures { 32768 ≡ length result }
{
    [0u8; 32768]
}

// Runs the three parts; the ledger goes from the first to the second.
fn main(rt: HostRuntime) -> io::Result<()> {
    let mut table = [0u8; 512];
    let mut file = [0u8; 4096];
    let mut ledger = empty_ledger();
    let rows = load_or_fail(&rt, b"reporters.ref", &mut table);
    let n = load_or_fail(&rt, b"worked.txt", &mut file);
    let tables = Tables {
        reporters: &table[..rows],
        currencies: b"CHFEURUSD",
    };
    worked::run(&rt, tables, &mut ledger, &file[..n])?;
    refused::run(&rt, tables, &mut ledger)?;
    list::run(&rt)
}
