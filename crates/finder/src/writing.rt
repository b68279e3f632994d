// The order file: the pairs that are found, and the file written from them.
ghost use Rattle.std.specs.Prelude.{◌≡◌, ◌++◌, ◌+◌, ◌*◌, ◌≤◌, length, drop};
ghost use Rattle.specification.specs.OrderFile.{pairs as pairs_of, order_file};

// The order file of the pairs whose bytes are handed over; the bytes after it keep their contents.
pub fn write_order(buffer: &mut [u8], pairs: &[u8], count: usize)
    requires { (count ≤ 1024) × (2 * count ≤ length pairs.now) × (7 + 2 * count ≤ length buffer.old) }
    ensures { buffer.new ≡ order_file (pairs_of count pairs.now) ++ drop (7 + 2 * count) buffer.old }
{
    files::write_opening(buffer, &files::ORDER_MARK, count as u16);
    buffer[7..7 + 2 * count].copy_from_slice(&pairs[0..2 * count]);
}
