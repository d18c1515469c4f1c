//! The target of a request (RFC 9112, section 3.2): a file of the dataset, a query or a selection. Nothing in
//! it is percent-decoded.

ghost use Rattle.std.specs.Prelude.{◌≡◌, ◌≢◌, ◌↔◌, ℕ, List, ◌∷◌, ◌++◌, IsTrue, IfOk, OnErr, IfSome, IfNone, IsSomeAnd, MatchOption, codes};
ghost use Rattle.std.specs.List.{AllByRecursion};
ghost use Rattle.ept_space.specs.declared.box3.Box3.{Box3};
ghost use Rattle.ept_space.specs.VoxelKey.{VoxelKey, IsKey};
ghost use Rattle.ept_space.specs.KeyText.{key_text};
ghost use Rattle.ept_filter.specs.declared.sift.Sift.{Sift};
ghost use Rattle.ept_http.specs.Targets.{IsTextName, IsServedName, IsQueryTarget, AreSiftWords, IsSelectTarget, AsksFor};

use crate::asked::Asked;
use crate::query::{read_box, read_depths, split_once};
use ept_filter::{Sift, read_sift};
use ept_point::{Memory, Text};
use ept_space::{Box3, Key, read_key};
use std::alloc::Global;
use std::str;

/// What a target asks for, or status 404 if it names nothing that is served.
///
/// # Errors
///
/// Memory ran out for the name of a file.
pub fn asked_of(alloc: Global, target: &[u8]) -> Result<Asked, Memory>
    ensures ok { IfOk result (AsksFor target.now) }
    ensures memory { OnErr result ((name : List ℕ) × AsksFor target.now (Asked.File name)) }
{
    if let Some(name) = served_name(target) {
        let name = String::from_str(alloc, name)?;
        return Ok(Asked::File(Text::of(name)));
    }
    if let Some((area, first, last)) = query_of(target) {
        return Ok(Asked::Query(area, first, last));
    }
    if let Some((area, first, last, sift)) = select_of(target) {
        return Ok(Asked::Select(area, first, last, sift));
    }
    Ok(Asked::Refuse(404))
}

// The name after the slash, if a file of that name is served.
fn served_name(target: &[u8]) -> Option<&str>
    ensures some { IfSome result (λ name. (target.now ≡ codes "/" ++ name.now) × IsServedName name.now) }
    ensures none { IfNone result ((name : List ℕ) → target.now ≡ codes "/" ++ name → ¬ IsServedName name) }
{
    let name = behind(target, b"/")?;
    if !is_served_name(name) {
        return None;
    }
    let Ok(name) = str::from_utf8(name) else {
        return None;
    };
    Some(name)
}

fn is_served_name(name: &[u8]) -> bool
    ensures { IsTrue result ↔ IsServedName name.now }
{
    let text = is_text_name(name);
    let tile = key_between(name, b"ept-data/", b".bin").is_some();
    let hierarchy = key_between(name, b"ept-hierarchy/", b".json").is_some();
    text | tile | hierarchy
}

fn is_text_name(name: &[u8]) -> bool
    ensures { IsTrue result ↔ IsTextName name.now }
{
    name == b"ept.json".as_slice()
        || name == b"ept-build.json".as_slice()
        || name == b"ept-sources/manifest.json".as_slice()
}

// The key whose text is between two others.
fn key_between(name: &[u8], front: &[u8], back: &[u8]) -> Option<Key>
    ensures some { IfSome result (λ key. IsKey key × (name.now ≡ front.now ++ (key_text key ++ back.now))) }
    ensures none { IfNone result ((key : VoxelKey) → IsKey key → name.now ≢ front.now ++ (key_text key ++ back.now)) }
{
    let rest = behind(name, front)?;
    let text = before(rest, back)?;
    read_key(text)
}

// The box and the depths that a target asks for.
fn query_of(target: &[u8]) -> Option<(Box3, u8, u8)>
    ensures some { IfSome result (λ query. IsQueryTarget target.now query.0 query.1 query.2) }
    ensures none { IfNone result ((area : Box3) (first last : ℕ) → ¬ IsQueryTarget target.now area first last) }
{
    let (area, depths) = query_words(target)?;
    let area = read_box(area)?;
    let (first, last) = read_depths(depths)?;
    Some((area, first, last))
}

// The words of a query.
fn query_words(target: &[u8]) -> Option<(&[u8], &[u8])>
    ensures some { IfSome result (λ words. target.now ≡ codes "/query?box=" ++ (words.0.now ++ (codes "&depths=" ++ words.1.now))) }
    ensures found { (area depths : List ℕ) → AllByRecursion (λ b. b ≢ 38) area
        → target.now ≡ codes "/query?box=" ++ (area ++ (codes "&depths=" ++ depths))
        → IsSomeAnd result (λ words. (words.0.now ≡ area) × (words.1.now ≡ depths)) }
{
    let words = behind(target, b"/query?box=")?;
    word_before(words, b"depths=")
}

// The box, the depths and the selection that a target asks for.
fn select_of(target: &[u8]) -> Option<(Box3, u8, u8, Sift)>
    ensures some { IfSome result (λ asked. IsSelectTarget target.now asked.0 asked.1 asked.2 asked.3) }
    ensures none { IfNone result ((area : Box3) (first last : ℕ) (sift : Sift) → ¬ IsSelectTarget target.now area first last sift) }
{
    let words = behind(target, b"/select?box=")?;
    let (area, words) = word_before(words, b"depths=")?;
    let (depths, words) = word_before(words, b"classes=")?;
    let sift = sift_of(words)?;
    let area = read_box(area)?;
    let (first, last) = read_depths(depths)?;
    Some((area, first, last, sift))
}

// The selection that these words ask for.
fn sift_of(words: &[u8]) -> Option<Sift>
    ensures some { IfSome result (AreSiftWords words.now) }
    ensures none { IfNone result ((sift : Sift) → ¬ AreSiftWords words.now sift) }
{
    let (classes, words) = word_before(words, b"time=")?;
    let (time, dims) = word_before(words, b"dims=")?;
    read_sift(classes, time, dims)
}

// The word before the first `&`, and what follows the key after it.
fn word_before<'a>(text: &'a [u8], key: &[u8]) -> Option<(&'a [u8], &'a [u8])>
    ensures some { IfSome result (λ r. text.now ≡ r.0.now ++ 38 ∷ (key.now ++ r.1.now)) }
    ensures found { (word rest : List ℕ) → AllByRecursion (λ b. b ≢ 38) word → text.now ≡ word ++ 38 ∷ (key.now ++ rest)
        → IsSomeAnd result (λ r. (r.0.now ≡ word) × (r.1.now ≡ rest)) }
{
    let (word, words) = split_once(text, b'&')?;
    let rest = behind(words, key)?;
    Some((word, rest))
}

// What follows a prefix.
fn behind<'a>(text: &'a [u8], front: &[u8]) -> Option<&'a [u8]>
    ensures { MatchOption result ((rest : List ℕ) → text.now ≢ front.now ++ rest) (λ rest. text.now ≡ front.now ++ rest.now) }
{
    text.strip_prefix(front)
}

// What precedes a suffix.
fn before<'a>(text: &'a [u8], back: &[u8]) -> Option<&'a [u8]>
    ensures { MatchOption result ((rest : List ℕ) → text.now ≢ rest ++ back.now) (λ rest. text.now ≡ rest.now ++ back.now) }
{
    text.strip_suffix(back)
}
