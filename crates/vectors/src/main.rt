// Runs vectors: prints a line for each line of its files.
#![tactic(auto)]

mod bookings;
mod identifiers;
mod lent;
mod pieces;
mod records;
mod view;

use disk::load_or_fail;
use std::io;
use std::rt::Files;
use tables::Tables;

// Room for a file of vectors.
const FILE_ROOM: usize = 65536;

// Prints what becomes of each line of the file of that name. Never inlined: the room of one file would then stand in main's frame during the next.
#[inline(never)]
fn run<F: Fn(&[u8]) -> io::Result<()>>(
    rt: &(impl Files + Eprint),
    path: &[u8],
    print: F,
) -> io::Result<()>
    requires { F.IsAlwaysCallable print }
{
    let mut buffer = [0u8; FILE_ROOM];
    let n = load_or_fail(rt, path, &mut buffer);
    for line in words::split(&buffer[..n], b'\n') {
        print(line)?;
    }
    Ok(())
}

// Runs all files.
fn main(rt: HostRuntime) -> io::Result<()> {
    let mut table = [0u8; 512];
    let mut list = [0u8; 1536];
    let rows = load_or_fail(&rt, b"reporters.ref", &mut table);
    let codes = load_or_fail(&rt, b"currency.ref", &mut list);
    let tables = Tables {
        reporters: &table[..rows],
        currencies: &list[..codes],
    };
    run(
        &rt,
        b"published.txt",
        |line| identifiers::print_isin(&rt, line),
    )?;
    run(&rt, b"isin.txt", |line| identifiers::print_isin(&rt, line))?;
    run(&rt, b"bic.txt", |line| identifiers::print_swift(&rt, line))?;
    run(&rt, b"sums.txt", |line| identifiers::print_sum(&rt, line))?;
    run(&rt, b"lent.txt", |line| lent::print(&rt, line))?;
    run(
        &rt,
        b"records.txt",
        |line| records::print(&rt, line, tables),
    )?;
    run(
        &rt,
        b"underlying.txt",
        |line| records::print(&rt, line, tables),
    )?;
    run(&rt, b"fields.txt", |line| view::print(&rt, line))?;
    run(&rt, b"bookings.txt", |line| bookings::print(&rt, line))
}
