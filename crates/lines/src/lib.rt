// Words, numbers, fields and lines of a text, read at a place of it and written at a place of a list of bytes (01, "The day file and the
// sheet"). Each reader gives the next place, or LOST. Nothing can be read at LOST, so that no reader has to ask whether the one before it
// found what it looked for.
#![tactic(auto)]

ghost use Rattle.std.specs.Prelude.{◌≡◌, ◌∷◌, ◌+◌, ◌-◌, ◌*◌, ◌<◌, ◌≤◌, pos, length, get_or};
ghost use Rattle.std.proofs.lemmas.List.Edits.{sets};
ghost use Rattle.lines.specs.InsideLines.{digits_at};
ghost use Rattle.lines.specs.Lines.{past, closed_field, field_at, close_of, figures_at, kind_at};
ghost use Rattle.lines.specs.Print.{natural, decimal, field, numbers_line};
ghost use Rattle.lines.specs.Text.{starts_with, word_at, minus_of, plain_of, number_at};

// 01: "a text of at most 65,536 bytes". LOST is a place past every text. It is a number and not a None, since the definitions `past`, `figures_at` and `up_to`
// go on with it: a longer text has a byte there, and a good line of it that ends there is bad.
pub const LONGEST: usize = 65536;

pub const LOST: usize = LONGEST + 1;

// Where a reader stands: its place, and the number of the line there; of a lost reader LOST, and the bad line's.
#[derive(Clone, Copy)]
pub struct LineStart {
    pub at: usize,
    pub line: usize,
}

// A number that was read, and the place behind its last digit.
#[derive(Clone, Copy)]
pub struct Numeral {
    pub value: i64,
    pub end: usize,
}

// What a field holds, and where the next one starts, or LOST.
#[derive(Clone, Copy)]
pub struct Field {
    pub value: i64,
    pub next: usize,
}

// Where the digits that a place begins with end, and their value.
#[derive(Clone, Copy)]
pub struct LeadingDigits {
    pub end: usize,
    pub value: u64,
}

// Whether the bytes at a place are exactly the word.
pub fn word_at(text: &[u8], at: usize, word: &[u8]) -> bool
    ensures { result ≡ word_at text.now at word.now }
{
    text[at.min(text.len())..].starts_with(word)
}

// The digits from a place: where they end, and their value; 2^63 + 1 for any that is larger, so that it is held by 64 bits.
fn digits(text: &[u8], at: usize) -> LeadingDigits
    requires { at ≤ length text.now }
    ensures { result ≡ digits_at text.now at }
{
    let mut value: u64 = 0;
    for i in at..text.len() {
        let b = text[i];
        if !b.is_ascii_digit() {
            return LeadingDigits { end: i, value };
        }
        if value > 922337203685477580 {
            value = 9223372036854775809;
        } else {
            value = value * 10 + (u64::from(b) - 48);
        }
    }
    LeadingDigits {
        end: text.len(),
        value,
    }
}

// The byte at a place, and 0 past the end.
pub fn byte_at(text: &[u8], at: usize) -> u8
    ensures { result ≡ get_or text.now at 0 }
{
    text.get(at).copied().unwrap_or(0)
}

// The number of a run of digits after a minus. It and `plain_of` are two, as in the definitions: the bound differs, and a 0 alone is a number without it.
// Three tests and not one: with `||` they are joined without a branch, ten instructions more for every number below 0.
fn minus_of(lead: u8, from: usize, d: LeadingDigits) -> Option<Numeral>
    ensures { result ≡ minus_of lead from d.end d.value }
{
    if d.end == from {
        return None;
    }
    if lead == b'0' {
        return None;
    }
    if d.value > 9223372036854775808 {
        return None;
    }
    let value = if d.value == 9223372036854775808 {
        i64::MIN
    } else {
        -(d.value as i64)
    };
    Some(Numeral { value, end: d.end })
}

// The number of a run of digits with no sign. A single digit, 0 too, is its own number. The run's length is asked before its leading digit: the
// loop over the digits has just branched on the length, so that a processor foretells it; nothing foretells which single digits are 0.
fn plain_of(lead: u8, from: usize, d: LeadingDigits) -> Option<Numeral>
    requires fact_1 { from < 18446744073709551615 }
    requires fact_2 { (d.end ≡ from + 1 → d.value ≡ lead - 48) }
    ensures { result ≡ plain_of lead from d.end d.value }
{
    if d.end == from + 1 {
        return Some(Numeral {
            value: d.value as i64,
            end: d.end,
        });
    }
    if d.end == from || lead == b'0' {
        return None;
    }
    let Ok(value) = i64::try_from(d.value) else {
        return None;
    };
    Some(Numeral { value, end: d.end })
}

// A decimal number at a place: no plus, no leading zero, no -0, and it fits 64 bits.
pub fn number_at(text: &[u8], at: usize) -> Option<Numeral>
    ensures { result ≡ number_at text.now at }
{
    let first = *text.get(at)?;
    if first == b'-' {
        let from = at + 1;
        let lead = byte_at(text, from);
        return minus_of(lead, from, digits(text, from));
    }
    plain_of(first, at, digits(text, at))
}

// The place behind a word, or LOST.
pub fn past_word(text: &[u8], at: usize, word: &[u8]) -> usize
    ensures { result ≡ past text.now at word.now }
{
    if word_at(text, at, word) {
        return at + word.len();
    }
    LOST
}

// A field that can not be read. It is a Field and not a None, since `figures_at` writes its 0 and reads on at its place.
const NO_FIELD: Field = Field {
    value: 0,
    next: LOST,
};

// A number, and the byte that closes its field. It is most of what reading a text is, and a call of its own would cost a field a tenth more.
#[inline]
pub fn field_at(text: &[u8], at: usize, close: u8) -> Field
    ensures { result ≡ field_at text.now at close }
{
    let Some(n) = number_at(text, at) else {
        return NO_FIELD;
    };
    if n.end < text.len() && text[n.end] == close {
        return Field {
            value: n.value,
            next: n.end + 1,
        };
    }
    NO_FIELD
}

// What closes a field after which `left` more come: a space, or a line feed.
pub fn close_of(left: usize) -> u8
    ensures { result ≡ close_of left }
{
    if left == 0 { b'\n' } else { b' ' }
}

// `count` fields up to the end of a line, written from `base` on.
pub fn figures_into(text: &[u8], from: usize, count: usize, out: &mut [i64], base: usize) -> usize
    requires { base + count ≤ length out.old }
    ensures { (result ≡ (figures_at text.now from count).next) × (out.new ≡ sets out.old base (figures_at text.now from count).values) }
{
    let mut at = from;
    let end = base + count;
    for i in base..end {
        let f = field_at(text, at, close_of(end - 1 - i));
        out[i] = f.value;
        at = f.next;
    }
    at
}

// A kind, which is a number of the ledger's words, and `count` fields, written from `base` on.
fn kind_and_fields(
    text: &[u8],
    at: usize,
    kind: i64,
    count: usize,
    words: &mut [i64],
    base: usize,
) -> usize
    requires { base + 1 + count ≤ length words.old }
    ensures { (result ≡ (figures_at text.now at count).next) × (words.new ≡ sets words.old base (kind ∷ (figures_at text.now at count).values)) }
{
    words[base] = kind;
    figures_into(text, at, count, words, base + 1)
}

// A line of kind 0, which begins with one word, or of kind 1, with another, written from `base` on.
pub fn kind_line(
    text: &[u8],
    at: usize,
    zeroth: &[u8],
    k: usize,
    first: &[u8],
    m: usize,
    words: &mut [i64],
    base: usize,
) -> usize
    requires fact_1 { base + 1 + k ≤ length words.old }
    requires fact_2 { base + 1 + m ≤ length words.old }
    ensures { (result ≡ (kind_at text.now at zeroth.now k first.now m).next) × (words.new ≡ sets words.old base (kind_at text.now at zeroth.now k first.now m).values) }
{
    let y = past_word(text, at, zeroth);
    if y == LOST {
        let x = past_word(text, at, first);
        return kind_and_fields(text, x, 1, m, words, base);
    }
    kind_and_fields(text, y, 0, k, words, base)
}

// A number's digits, written from `at` on; the place behind them.
pub fn put_digits(out: &mut [u8], at: usize, n: u64) -> usize
    requires { at + 20 ≤ length out.old }
    ensures { (result ≡ at + length (natural n)) × (out.new ≡ sets out.old at (natural n)) }
{
    if n < 10 {
        out[at] = b'0' + n as u8;
        return at + 1;
    }
    let e = put_digits(out, at, n / 10);
    out[e] = b'0' + (n % 10) as u8;
    e + 1
}

// The same, and not the recursion itself, for speed: many numbers of a sheet have one digit, and it is written without a call.
fn put_natural(out: &mut [u8], at: usize, n: u64) -> usize
    requires { at + 20 ≤ length out.old }
    ensures { (result ≡ at + length (natural n)) × (out.new ≡ sets out.old at (natural n)) }
{
    if n < 10 {
        out[at] = b'0' + n as u8;
        return at + 1;
    }
    put_digits(out, at, n)
}

// A signed number in decimal.
pub fn put_number(out: &mut [u8], at: usize, x: i64) -> usize
    requires { at + 21 ≤ length out.old }
    ensures { (result ≡ at + length (decimal x)) × (out.new ≡ sets out.old at (decimal x)) }
{
    if x < 0 {
        out[at] = b'-';
        return put_natural(out, at + 1, x.unsigned_abs());
    }
    put_natural(out, at, x.unsigned_abs())
}

// The bytes of a word.
pub fn put_word(out: &mut [u8], at: usize, word: &[u8]) -> usize
    requires { at + length word.now ≤ length out.old }
    ensures { (result ≡ at + length word.now) × (out.new ≡ sets out.old at word.now) }
{
    let end = at + word.len();
    out[at..end].copy_from_slice(word);
    end
}

// A natural number, and what closes its field. It has no minus, so it is asked one place less than `put_field`, and a u64 is no i64.
pub fn put_count(out: &mut [u8], at: usize, n: u64, close: u8) -> usize
    requires { at + 21 ≤ length out.old }
    ensures { (result ≡ at + length (field (pos n) close)) × (out.new ≡ sets out.old at (field (pos n) close)) }
{
    let e = put_natural(out, at, n);
    out[e] = close;
    e + 1
}

// A number, and what closes its field.
pub fn put_field(out: &mut [u8], at: usize, x: i64, close: u8) -> usize
    requires { at + 22 ≤ length out.old }
    ensures { (result ≡ at + length (field x close)) × (out.new ≡ sets out.old at (field x close)) }
{
    let e = put_number(out, at, x);
    out[e] = close;
    e + 1
}

// A line of numbers.
pub fn put_line(out: &mut [u8], from: usize, numbers: &[i64]) -> usize
    requires { from + length numbers.now * 22 ≤ length out.old }
    ensures { (result ≡ from + length (numbers_line numbers.now)) × (out.new ≡ sets out.old from (numbers_line numbers.now)) }
{
    let mut at = from;
    for (i, x) in numbers.iter().enumerate() {
        at = put_field(out, at, *x, close_of(numbers.len() - 1 - i));
    }
    at
}
