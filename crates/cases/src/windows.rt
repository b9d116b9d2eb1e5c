// A margin rate from price history: two windows of figures, and the part handed back, which is known by its figures.
use crate::reading::Case;
use crate::sums;

pub fn agrees(mut case: Case) -> bool {
    let mut weeks8 = [0; 1024];
    let mut weeks104 = [0; 1024];
    let w = case.list(&mut weeks8);
    let v = case.list(&mut weeks104);
    let mut number = 99;
    let mut rate = -1;
    let part = rates::governing(&weeks8[..w], &weeks104[..v], &mut number, &mut rate);
    let sum = sums::checksum(part);
    case.ends(number, [rate, sum])
}
