// The largest day: 64 accounts, 16 products, 1,024 positions, 1,000 calls; and its sheet. Every figure but some books is 0, and every call
// is a step or a close that the phase forbids (7), so that each line of the sheet is known.
use faults::page::Page;
use std::fmt;
use std::fmt::Write;

// A word, some times over.
pub fn put_many(page: &mut Page, word: &str, count: usize) -> fmt::Result {
    for _i in 0..count {
        page.write_str(word)?;
    }
    Ok(())
}

// A position of no lots, and a book that is `wide` digits longer than one digit.
fn put_position(page: &mut Page, account: usize, product: usize, wide: usize) -> fmt::Result {
    write!(page, "{account} {product} 0 1")?;
    put_many(page, "0", wide)?;
    page.write_str("\n")
}

// All positions; the text grows by `extra` bytes, 13 at most for each book.
fn put_positions(page: &mut Page, extra: usize) -> fmt::Result {
    let mut wide = extra;
    for i in 0..1024 {
        let more = wide.min(13);
        put_position(page, i / 16, i % 16, more)?;
        wide -= more;
    }
    Ok(())
}

// Closes of 16 products.
fn put_closes(page: &mut Page, count: usize) -> fmt::Result {
    for _i in 0..count {
        page.write_str("C")?;
        put_many(page, " 1 1 1 0", 16)?;
        page.write_str("\n")?;
    }
    Ok(())
}

// The day's text: 380 closes and 620 steps.
pub fn put_day(page: &mut Page, extra: usize) -> fmt::Result {
    page.write_str("FXDAY\nPRODUCTS 16\nACCOUNTS 64\nPOSITIONS 1024\nCALLS 1000\nEND\n")?;
    put_many(page, "Y 1 5000000\n", 16)?;
    put_many(page, "F 0 0 0 0 0 0 0\nL 0 0 0 0 0 0 0\n", 32)?;
    put_positions(page, extra)?;
    put_closes(page, 380)?;
    put_many(page, "S\n", 620)
}

// The accounts' lines of the sheet.
fn put_accounts(page: &mut Page) -> fmt::Result {
    for account in 0..64 {
        write!(page, "{account} 0 0 0 0 0 0 0\n")?;
    }
    Ok(())
}

// The day's sheet.
pub fn put_sheet(page: &mut Page) -> fmt::Result {
    page.write_str("FXSHEET\n")?;
    put_many(page, "7 0\n", 1000)?;
    put_accounts(page)?;
    page.write_str("HOUSE 0\n")
}
