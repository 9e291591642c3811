// Which bytes are a title: well-formed UTF-8 of at most 60 characters, all of which may stand in XML. Table 3-7 of the
// Unicode Standard says which bytes may follow which.
// Not std's from_utf8: specs/Title.antt defines is_title by this walk, and an escaped title's room is proved along it.
ghost use Rattle.std.specs.Prelude.{◌≡◌, ◌≤◌};
ghost use Rattle.picture.specs.Title.{lowest_after, highest_after, more_after, tails, after_lead, after_first};
ghost use Rattle.picture.specs.Title.{after_tail, after_edge, after, is_whole, well_formed, begins, characters_in};
ghost use Rattle.picture.specs.Title.{is_title, is_shown};

// The most characters that a title has, so that it goes into a piece even where each is escaped.
const MOST: usize = 60;

// What may come next in a text.
#[derive(Clone, Copy)]
enum Next {
    // A character's first byte, or the end.
    First,
    // A byte from the first number to the second, and after it as many from 0x80 to 0xBF as the third says.
    Tail(u8, u8, u8),
    // The second byte after 0xEF, which may lead to U+FFFE and U+FFFF.
    Edge,
    // It is no title, whatever comes.
    Nothing,
}

// The lowest second byte after a first one.
#[tactic(auto, unfolding(crate::specs::Title::lowest_after))]
fn lowest(lead: u8) -> u8
    ensures { result ≡ lowest_after lead }
{
    match lead {
        0xC2 | 0xE0 => 0xA0,
        0xF0 => 0x90,
        _ => 0x80,
    }
}

// The highest.
#[tactic(auto, unfolding(crate::specs::Title::highest_after))]
fn highest(lead: u8) -> u8
    ensures { result ≡ highest_after lead }
{
    match lead {
        0xED => 0x9F,
        0xF4 => 0x8F,
        _ => 0xBF,
    }
}

// How many bytes follow the second.
#[tactic(auto, unfolding(crate::specs::Title::more_after))]
fn more(lead: u8) -> u8
    ensures { result ≡ more_after lead }
{
    match lead {
        0..=0xDF => 0,
        0xE0..=0xEF => 1,
        _ => 2,
    }
}

#[tactic(auto, unfolding(crate::specs::Title::after_lead))]
fn after_lead(lead: u8) -> Next
    ensures { result ≡ after_lead lead }
{
    if lead == 0xEF {
        return Next::Edge;
    }
    Next::Tail(lowest(lead), highest(lead), more(lead))
}

#[tactic(auto, unfolding(crate::specs::Title::after_first))]
fn after_first(b: u8) -> Next
    ensures { result ≡ after_first b }
{
    match b {
        0x20..=0x7E => Next::First,
        0xC2..=0xF4 => after_lead(b),
        _ => Next::Nothing,
    }
}

// The end of a character after n bytes more.
fn tails(n: u8) -> Next
    ensures { result ≡ tails n }
{
    if n == 0 {
        return Next::First;
    }
    Next::Tail(0x80, 0xBF, n - 1)
}

#[tactic(auto, unfolding(crate::specs::Title::after_tail))]
fn after_tail(low: u8, high: u8, n: u8, b: u8) -> Next
    ensures { result ≡ after_tail low high n b }
{
    if low <= b && b <= high {
        return tails(n);
    }
    Next::Nothing
}

#[tactic(auto, unfolding(crate::specs::Title::after_edge))]
fn after_edge(b: u8) -> Next
    ensures { result ≡ after_edge b }
{
    if b == 0xBF {
        return Next::Tail(0x80, 0xBD, 0);
    }
    after_tail(0x80, 0xBE, 1, b)
}

fn after(s: Next, b: u8) -> Next
    ensures { result ≡ after s b }
{
    match s {
        Next::First => after_first(b),
        Next::Tail(low, high, n) => after_tail(low, high, n, b),
        Next::Edge => after_edge(b),
        Next::Nothing => Next::Nothing,
    }
}

fn is_whole(s: Next) -> bool
    ensures { result ≡ is_whole s }
{
    matches!(s, Next::First)
}

fn well_formed(text: &[u8]) -> bool
    ensures { result ≡ well_formed text.now }
{
    let mut s = Next::First;
    for b in text {
        s = after(s, *b);
    }
    is_whole(s)
}

// 1 for a byte that begins a character, 0 for any other: a number, so that the count needs no branch.
#[tactic(auto, unfolding(crate::specs::Title::begins))]
fn begins(b: u8) -> usize
    ensures { (result ≡ begins b) × (result ≤ 1) }
{
    match b {
        0x80..=0xBF => 0,
        _ => 1,
    }
}

fn characters(text: &[u8]) -> usize
    ensures { result ≡ characters_in text.now }
{
    let mut n = 0;
    for b in text {
        n += begins(*b);
    }
    n
}

pub fn suits(text: &[u8]) -> bool
    ensures { result ≡ is_title text.now }
{
    characters(text) <= MOST && well_formed(text)
}

// Whether a title is drawn: one of no characters is not.
pub fn is_shown(title: &[u8]) -> bool
    ensures { result ≡ is_shown title.now }
{
    !title.is_empty() && suits(title)
}
