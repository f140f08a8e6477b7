// Files that are read whole, as far as a buffer has room, and files that are saved whole.
#![tactic(auto)]

ghost use Rattle.std.specs.Prelude.{◌&&◌, ◌≡◌, is_ok};
ghost use Rattle.io.specs.Counts.{IsPrefixLen};
ghost use Rattle.disk.specs.Loaded.{filled};

use std::fmt::{Display, Formatter};
use std::fs::{OpenFile, OpenOptions};
use std::io::{Cursor, Error, ErrorKind, Read, Write};
use std::rt::Files;
use std::{fmt, fs, io, str};

// The system's number for bytes that are no text: a path has to be text.
const NO_TEXT: i32 = 84;

// Why a file could not be read, and how many bytes of the buffer it had filled by then.
#[derive(Clone, Copy)]
pub struct Unread {
    pub bytes: usize,
    pub why: Error,
}

// What became of a save: of the writing of all bytes, and of their taking the name, which fails for the same reason where the writing failed.
// As it is: in one result "named, though not all was written" could not be said, and the wrong builds named_as_written and its like had no place.
#[derive(Clone, Copy)]
pub struct Saved {
    pub written: io::Result<()>,
    pub named: io::Result<()>,
}

// Bytes as the text that they are; what is none is shown as U+FFFD.
#[derive(Clone, Copy)]
struct Shown<'a> {
    bytes: &'a [u8],
}

impl Display for Shown<'_> {
    fn fmt<W: fmt::Write>(&self, f: &mut Formatter<W>) -> fmt::Result {
        for chunk in self.bytes.utf8_chunks() {
            f.write_str(chunk.valid())?;
            if !chunk.invalid().is_empty() {
                f.write_str("\u{FFFD}")?;
            }
        }
        Ok(())
    }
}

// Why a call failed, as text in the system's words: the library's text of the error, without the number that it puts behind them.
#[derive(Clone, Copy)]
pub struct Reason {
    pub error: Error,
}

impl Display for Reason {
    fn fmt<W: fmt::Write>(&self, f: &mut Formatter<W>) -> fmt::Result {
        let mut page = Cursor::new([0u8; 256]);
        let _ = write!(page, "{}", self.error);
        let room: &[u8] = page.get_ref();
        let text = str::from_utf8(room).unwrap_or("");
        match text.split_once(" (os error ") {
            Some((words, _)) => f.write_str(words),
            None => f.write_str(text.trim_end_matches('\0')),
        }
    }
}

// A path as the text that the library asks for.
fn text_of(path: &[u8]) -> io::Result<&str> {
    str::from_utf8(path).map_err(|_| Error::from_raw_os_error(NO_TEXT))
}

// Reads an open file to its end, or as far as there is room.
fn read_open(file: &mut impl Read, buffer: &mut [u8]) -> Result<usize, Unread>
    ensures { IsPrefixLen (filled result) buffer.new }
{
    let mut bytes = 0;
    // As it is: each read goes on where the one before it ended, and may fail; a closure that reads into what is left would be no plainer.
    while bytes < buffer.len() {
        match file.read(&mut buffer[bytes..]) {
            Ok(0) => break,
            Ok(n) => bytes += n,
            Err(why) => return Err(Unread { bytes, why }),
        }
    }
    Ok(bytes)
}

// Opens a file for reading.
fn open_read<R: Files>(rt: &R, path: &[u8]) -> io::Result<R::File> {
    fs::open(rt, text_of(path)?)
}

// Reads a file. A missing one counts as empty; of one that cannot be read it is told why.
pub fn load(rt: &impl Files, path: &[u8], buffer: &mut [u8]) -> Result<usize, Unread>
    ensures { IsPrefixLen (filled result) buffer.new }
{
    match open_read(rt, path) {
        Ok(mut file) => read_open(&mut file, buffer),
        Err(why) if why.kind() == ErrorKind::NotFound => Ok(0),
        Err(why) => Err(Unread { bytes: 0, why }),
    }
}

// Says on standard error what failed, as the caller names it, and why.
fn fail(rt: &impl Eprint, what: &[u8], why: Error) {
    let _ = eprintln!(rt; "{}: {}", Shown { bytes: what }, Reason { error: why });
}

// Reads a file, says on standard error why where it cannot be read, and answers how many bytes of the buffer it filled.
pub fn load_or_fail(rt: &(impl Files + Eprint), path: &[u8], buffer: &mut [u8]) -> usize
    ensures { IsPrefixLen result buffer.new }
{
    match load(rt, path, buffer) {
        Ok(bytes) => bytes,
        Err(unread) => {
            fail(rt, path, unread.why);
            unread.bytes
        }
    }
}

// Writes all bytes to a new file, and waits until they have reached its device.
fn write_new(rt: &impl Files, path: &[u8], bytes: &[u8]) -> io::Result<()> {
    let mut file = OpenOptions::new()
        .write(true)
        .create_new(true)
        .open(rt, text_of(path)?)?;
    file.write_all(bytes)?;
    file.sync_all()
}

// Waits until a new name has reached the device of the working directory, where the system can tell.
fn sync_folder(rt: &impl Files) {
    if let Ok(folder) = fs::open(rt, ".") {
        let _ = folder.sync_all();
    }
}

// Removes a file, where it is there.
fn remove(rt: &impl Files, path: &[u8]) {
    if let Ok(text) = text_of(path) {
        let _ = fs::remove_file(rt, text);
    }
}

// Gives a file another name, and takes that from what had it.
fn rename(rt: &impl Files, from: &[u8], to: &[u8]) -> io::Result<()> {
    fs::rename(rt, text_of(from)?, text_of(to)?)
}

// Gives the name to what was written whole, and to nothing else.
fn take_name(
    rt: &impl Files,
    written: io::Result<()>,
    temporary: &[u8],
    name: &[u8],
) -> io::Result<()>
    ensures { is_ok result ≡ (is_ok written && is_ok result) }
{
    written?;
    rename(rt, temporary, name)?;
    sync_folder(rt);
    Ok(())
}

// Saves a file in the working directory, so that its name always stands for a whole one: it is written under a temporary name, which a stopped
// run may have left, and then renamed. Where that fails an older file stays as it is, and it is told why, so that the caller removes what was
// written only after it has said so. What the promise can tell: the name is taken only by what was written whole. What a name then stands for is
// the operating system's word.
pub fn save(rt: &impl Files, bytes: &[u8], temporary: &[u8], name: &[u8]) -> Saved
    ensures { is_ok result.named ≡ (is_ok result.written && is_ok result.named) }
{
    remove(rt, temporary);
    let written = write_new(rt, temporary, bytes);
    let named = take_name(rt, written, temporary, name);
    Saved { written, named }
}

// Says on standard error what was not done, and why: what failed, on which file, and the system's reason.
fn complain(rt: &impl Eprint, undone: &[u8], doing: &[u8], path: &[u8], why: Error) {
    let _ = eprint!(rt; "{}{}", Shown { bytes: undone }, Shown { bytes: doing });
    fail(rt, path, why);
}

// Reads a file as `load` does, and says what is not done where it cannot be read.
pub fn load_or_complain(
    rt: &(impl Files + Eprint),
    path: &[u8],
    buffer: &mut [u8],
    undone: &[u8],
) -> Result<usize, Unread>
    ensures { IsPrefixLen (filled result) buffer.new }
{
    let loaded = load(rt, path, buffer);
    if let Err(unread) = loaded {
        complain(rt, undone, b"cannot read ", path, unread.why);
    }
    loaded
}

// Saves a file as `save` does; where that fails says what is not done, and removes what was written.
pub fn save_or_complain(
    rt: &(impl Files + Eprint),
    bytes: &[u8],
    temporary: &[u8],
    name: &[u8],
    undone: &[u8],
) -> Saved
    ensures { is_ok result.named ≡ (is_ok result.written && is_ok result.named) }
{
    let saved = save(rt, bytes, temporary, name);
    if let Err(why) = saved.written {
        complain(rt, undone, b"cannot write ", temporary, why);
        remove(rt, temporary);
        return saved;
    }
    if let Err(why) = saved.named {
        complain(rt, undone, b"cannot replace ", name, why);
        remove(rt, temporary);
    }
    saved
}
