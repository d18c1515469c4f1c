//! What the words of the command line ask for.

ghost use Rattle.std.specs.Prelude.{◌≡◌, ◌≢◌, ◌↔◌, ◌<◌, ◌^◌, ℕ, List, [], ◌∷◌, IsTrue, IfSome, IfNone, decimal, pos};
ghost use Rattle.ept_listen.specs.Words.{bytes_of, ArePlace, AreRead, AreReadPlain, AreReadSingle};

use ept_num::read_whole;

/// The most connections that may be asked for.
const MOST: i64 = 4_294_967_295;

/// What the words ask for. `connections` is the number of connections to serve, or `None` to serve without end.
/// `single` is whether one thread serves them all.
#[derive(Clone, Copy, Debug, PartialEq, Eq)]
pub struct Serve {
    pub connections: Option<u32>,
    pub single: bool,
}

/// What these words, which follow the program's name, ask for. They are `OUT ADDRESS`, after `--connections N` if only
/// N connections are served, and after `--single` if one thread serves them all. Returns nothing for any other words.
pub fn server_words(words: &[String]) -> Option<Serve>
    ensures { AreRead (bytes_of words.now) result }
{
    match words {
        [out, address] => read_place(out, address),
        [single, out, address] => read_single(single, read_place(out, address)),
        [option, count, out, address] => read_limited(option, count, out, address),
        [single, option, count, out, address] => {
            read_single(single, read_limited(option, count, out, address))
        }
        _ => None,
    }
}

// What words ask for whose first has to be `--single`. `others` is what the words after it were read as.
fn read_single(single: &str, others: Option<Serve>) -> Option<Serve>
    ensures { (words : List (List ℕ)) → AreReadPlain words others → AreReadSingle (single.now ∷ words) result }
{
    let serve = others?;
    if single != "--single" {
        return None;
    }
    Some(Serve {
        connections: serve.connections,
        single: true,
    })
}

// What two words ask for.
fn read_place(out: &str, address: &str) -> Option<Serve>
    ensures { AreReadPlain (out.now ∷ address.now ∷ []) result }
{
    if !are_place(out, address) {
        return None;
    }
    Some(Serve {
        connections: None,
        single: false,
    })
}

// What four words ask for.
fn read_limited(option: &str, count: &str, out: &str, address: &str) -> Option<Serve>
    ensures { AreReadPlain (option.now ∷ count.now ∷ out.now ∷ address.now ∷ []) result }
{
    if option != "--connections" || !are_place(out, address) {
        return None;
    }
    let connections = read_count(count)?;
    Some(Serve {
        connections: Some(connections),
        single: false,
    })
}

// Whether these are a folder and an address.
fn are_place(out: &str, address: &str) -> bool
    ensures { IsTrue result ↔ ArePlace (out.now ∷ address.now ∷ []) }
{
    !out.is_empty() && !address.is_empty()
}

// The number of connections that a word spells.
fn read_count(word: &str) -> Option<u32>
    ensures some { IfSome result (λ n. (word.now ≡ decimal n) × (0 < n) × (n < 2 ^ 32)) }
    ensures none { IfNone result ((n : ℕ) → 0 < n → n < 2 ^ 32 → word.now ≢ decimal n) }
{
    let whole = read_whole(word.as_bytes())?;
    count_of(whole)
}

// The number, if it may be a number of connections.
fn count_of(whole: i64) -> Option<u32>
    ensures some { IfSome result (λ n. (whole ≡ pos n) × (0 < n) × (n < 2 ^ 32)) }
    ensures none { IfNone result ((n : ℕ) → whole ≡ pos n → 0 < n → n < 2 ^ 32 → ⊥) }
{
    if whole < 1 || whole > MOST {
        return None;
    }
    Some(whole as u32)
}
