// The printing program (document 01): prints what placing the amounts of `amounts.cla` by the book `book.clb` comes to, both read from the
// folder in which it is run.
#![tactic(auto)]

ghost use Rattle.std.specs.Prelude.{◌≤◌, length};

use std::rt::Files;
use std::{fs, io};

// Reads until the buffer is full, the input ends or a read fails, and returns what it read: `read_exact` refuses an input that is shorter, and
// `read_to_end` asks for a heap.
fn read_full<'a>(input: &mut impl io::Read, buffer: &'a mut [u8]) -> &'a [u8]
    ensures { length result.now ≤ length buffer.old }
{
    let mut length = 0;
    while length < buffer.len() {
        match input.read(&mut buffer[length..]) {
            Ok(0) | Err(_) => break,
            Ok(more) => length += more,
        }
    }
    &buffer[..length]
}

// Reads a file until the buffer is full or the file ends; of one that is absent or cannot be read nothing.
fn read_file<'a>(rt: &impl Files, path: &str, buffer: &'a mut [u8]) -> &'a [u8]
    ensures { length result.now ≤ length buffer.old }
{
    match fs::open(rt, path) {
        Ok(mut file) => read_full(&mut file, buffer),
        Err(_) => &buffer[..0],
    }
}

// Whether the text could be written is not told: the program's status is always 0.
fn main(rt: HostRuntime) {
    let mut book = [0u8; placer::BOOK_MOST];
    let mut amounts = [0u8; placer::AMOUNTS_MOST];
    let book = read_file(&rt, "book.clb", &mut book);
    let amounts = read_file(&rt, "amounts.cla", &mut amounts);
    let text = placer::printed_text(book, amounts);
    let _ = rt.write_all(text.as_bytes());
}
