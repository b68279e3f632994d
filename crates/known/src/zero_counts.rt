// Desks with no lots or no calls (document 02, request 5): placed by an order of no pairs, with a flow of no entries, and with five that are
// kept.
use std::io;

// Places by a book, with amounts that have its counts and are 0 but for the first.
fn desk(rt: &impl Print, label: &str, book: &[u8], first: u8) -> io::Result<()> {
    let mut amounts = [0u8; 135];
    files::write_opening(&mut amounts, &files::AMOUNTS_MARK, files::u16_at(book, 5));
    amounts[7] = first;
    let count = usize::from(files::u8_at(book, 5)) + usize::from(files::u8_at(book, 6));
    let amounts = amounts.get(..7 + 4 * count).unwrap_or(&amounts);
    super::run_in(rt, label, book, b"CLO\x01\0\0\0", amounts, &mut [])?;
    super::find_and_run(rt, label, book, amounts)?;
    super::find_and_run_by(
        rt,
        label,
        "find_and_run_idle",
        placer::find_and_run_idle,
        book,
        amounts,
        &mut [],
    )
}

pub fn desks(rt: &impl Print) -> io::Result<()> {
    desk(rt, "Nothing at all", b"CLB\x01\0\0\0", 0)?;
    desk(rt, "Two calls alone", b"CLB\x02\0\0\x02", 3)?;
    desk(rt, "32 calls of 0 units", b"CLB\x01\0\0\x20", 0)?;
    desk(rt, "Two lots alone", b"CLB\x01\0\x02\0\0\0\0\0\0\0\0\0", 4)?;
    desk(
        rt,
        "Two lots of 0 units",
        b"CLB\x02\0\x02\0\0\0\0\0\0\0\0\0",
        0,
    )
}
