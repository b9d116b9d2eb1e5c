// The sheet of a text that is given byte by byte.
use crate::reading::Case;
use crate::sums;

pub fn agrees(mut case: Case) -> bool {
    let mut none = [0; 1];
    let mut figures = [0; 512];
    let mut text = [0u8; 512];
    let mut out = [0u8; 65536];
    case.list(&mut none);
    let count = case.list(&mut figures);
    for (byte, figure) in text.iter_mut().zip(&figures) {
        *byte = (figure.unsigned_abs() % 256) as u8;
    }
    let size = day::sheet(&text[..count], &mut out);
    let sum = out.get(..size).map_or(0, |sheet| sums::checksum(sheet));
    case.ends(size as u64, [0, sum])
}
