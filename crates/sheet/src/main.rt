// The sheet program (01, "The day file and the sheet"): reads a day file from standard input, or from the file that its first argument
// names, and prints the sheet on standard output. What is wrong with a bad text, which calls were refused, and why a file can not be read, it
// says on standard error.
#![tactic(auto)]

ghost use Rattle.std.specs.Prelude.{◌≤◌, length, IfOk};

use std::env::{Env, FillError};
use std::fmt::InlineText;
use std::io::Read;
use std::{fs, io};

// Reads until the input ends or `text` is full; how many bytes came. A read may give less than was asked for, so that only one that gives
// nothing ends it. By an index, since each read says how many bytes came and the rest is lent to the next.
fn read_text(source: &mut impl Read, text: &mut [u8]) -> io::Result<usize>
    ensures { IfOk result (λ n. n ≤ length text.old) }
{
    let mut size = 0;
    while size < text.len() {
        let more = source.read(&mut text[size..])?;
        if more == 0 {
            return Ok(size);
        }
        size += more;
    }
    Ok(size)
}

// Where the words of an error end, without the number that the system gives it.
fn end_of_words(words: &str) -> usize
    ensures { result ≤ length words.now }
{
    match words.find(" (os error ") {
        Some(end) => end,
        None => words.len(),
    }
}

// Says on standard error what can not be read or written, and why. Where that can not be said either, nothing is left to say it to.
fn fail(rt: &HostRuntime, what: &str, why: io::Error) {
    let words = InlineText::<512>::of(why);
    let end = end_of_words(words.as_str());
    let _ = rt.stderr().write_all(what.as_bytes());
    let _ = rt.stderr().write_all(b": ");
    let _ = rt.stderr().write_all(&words.as_str().as_bytes()[..end]);
    let _ = rt.stderr().write_all(b"\n");
}

// Why an argument is the name of no file.
fn no_name(why: &str) -> io::Error {
    io::Error::new(io::ErrorKind::InvalidFilename, why)
}

// Says on standard error what is wrong with a bad text, or which calls of a good one were refused.
fn print_words(rt: &HostRuntime, text: &[u8], sheet: &[u8]) {
    let mut words = [0u8; 262144];
    let size = plain::tell(text, sheet, &mut words);
    let _ = rt.stderr().write_all(&words[..size]);
}

// Prints the sheet of a text.
fn print_sheet(rt: &HostRuntime, text: &[u8]) {
    let mut out = [0u8; 65536];
    let size = day::sheet(text, &mut out);
    if let Err(why) = rt.write_all(&out[..size]) {
        fail(rt, "standard output", why);
    }
    print_words(rt, text, &out[..size]);
}

// Reads a text and prints its sheet. One byte more than a text may have is read, so that an overlong text is seen to be one.
fn print_day(rt: &HostRuntime, source: &mut impl Read, name: &str) {
    let mut text = [0u8; 65537];
    match read_text(source, &mut text) {
        Ok(size) => print_sheet(rt, &text[..size]),
        Err(why) => fail(rt, name, why),
    }
}

// The same of the file of a name.
fn print_file(rt: &HostRuntime, name: &str) {
    match fs::open(rt, name) {
        Ok(file) => {
            let mut source = file;
            print_day(rt, &mut source, name);
        }
        Err(why) => fail(rt, name, why),
    }
}

fn main(rt: HostRuntime) {
    let mut name = [0u8; 4096];
    match rt.arg(1, &mut name) {
        Ok(size) => match str::from_utf8(&name[..size]) {
            Ok(name) => print_file(&rt, name),
            Err(_) => fail(&rt, "file name", no_name("not UTF-8")),
        },
        Err(FillError::NotPresent) => print_day(&rt, &mut rt.stdin(), "standard input"),
        Err(FillError::TooLong) => fail(&rt, "file name", no_name("File name too long")),
    }
}
