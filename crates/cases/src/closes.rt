// The close of a day: the words, and four lists of figures by product.
use crate::reading::Case;
use crate::sums;

pub fn agrees(mut case: Case) -> bool {
    let mut none = [0; 1];
    let mut words = [0; 512];
    let mut prices = [0; 512];
    let mut rates8 = [0; 512];
    let mut rates104 = [0; 512];
    let mut lags = [0; 512];
    case.list(&mut none);
    let w = case.list(&mut words);
    let p = case.list(&mut prices);
    let r = case.list(&mut rates8);
    let s = case.list(&mut rates104);
    let l = case.list(&mut lags);
    let reply = closing::close(
        &mut words[..w],
        &prices[..p],
        &rates8[..r],
        &rates104[..s],
        &lags[..l],
    );
    case.ends(reply.number, [reply.figure, sums::checksum(&words[..w])])
}
