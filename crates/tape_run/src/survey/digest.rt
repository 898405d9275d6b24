//! A digest of the data blocks of a section, by which its copies are compared.
ghost use Rattle.std.specs.{Prelude.◌≡◌, Prelude.map, Int.w64, Int.from_le_bytes};
ghost use Rattle.tape_run.specs.SurveyDigest.{digest_by, digest_with, in_turn, side_by, side_over};
ghost use Rattle.tape_run.specs.SurveyDigest.{no_chains, words_of};
ghost use Rattle.tape_run.specs.SurveyCopies.{digest_in};
ghost use Rattle.tape_image.specs.Reader.{tape_item};

use crate::passing::Phase;
use tape_image::Item;

/// An odd number, so that no two digests have one product with it.
const MULTIPLIER: u64 = 0x9E37_79B9_7F4A_7C15;

/// Returns the digest after one more word.
#[tactic(auto, unfolding(crate::specs::SurveyDigest::digest_by))]
fn digest_by(digest: u64, word: u64) -> u64
    ensures { result ≡ digest_by digest word }
{
    let sum = digest.rotate_left(32).wrapping_add(word);
    sum.wrapping_mul(MULTIPLIER)
}

/// Eight chains of digests: the words of a block go to them in turn, so that a word need not wait
/// for the product of the word before it.
#[derive(Clone, Copy)]
struct Chains {
    a: u64,
    b: u64,
    c: u64,
    d: u64,
    e: u64,
    f: u64,
    g: u64,
    h: u64,
}

/// Returns the chains after one more word: the first chain takes the word, and becomes the last.
fn next_chains(chains: Chains, word: u64) -> Chains
    ensures { in_turn result ≡ side_by (in_turn chains) word }
{
    Chains {
        a: chains.b,
        b: chains.c,
        c: chains.d,
        d: chains.e,
        e: chains.f,
        f: chains.g,
        g: chains.h,
        h: digest_by(chains.a, word),
    }
}

/// Returns the chains after words of eight bytes. Eight words are taken at once, one by each chain,
/// so that the chains need not change places.
fn chains_of_words(chains: Chains, words: &[[u8; 8]]) -> Chains
    ensures { in_turn result ≡ side_over (in_turn chains) (map (from_le_bytes w64) words.now) }
{
    let mut all = chains;
    let mut left = words;
    'words: loop {
        match left {
            [a, b, c, d, e, f, g, h, rest @ ..] => {
                all = Chains {
                    a: digest_by(all.a, u64::from_le_bytes(*a)),
                    b: digest_by(all.b, u64::from_le_bytes(*b)),
                    c: digest_by(all.c, u64::from_le_bytes(*c)),
                    d: digest_by(all.d, u64::from_le_bytes(*d)),
                    e: digest_by(all.e, u64::from_le_bytes(*e)),
                    f: digest_by(all.f, u64::from_le_bytes(*f)),
                    g: digest_by(all.g, u64::from_le_bytes(*g)),
                    h: digest_by(all.h, u64::from_le_bytes(*h)),
                };
                left = rest;
            }
            [word, rest @ ..] => {
                all = next_chains(all, u64::from_le_bytes(*word));
                left = rest;
            }
            [] => return all,
        }
    }
}

/// Returns the chains after single bytes.
fn chains_of_bytes(chains: Chains, bytes: &[u8]) -> Chains
    ensures { in_turn result ≡ side_over (in_turn chains) bytes.now }
{
    let mut all = chains;
    let mut left = bytes;
    'bytes: loop {
        let [byte, rest @ ..] = left else {
            return all;
        };
        all = next_chains(all, u64::from(*byte));
        left = rest;
    }
}

/// Returns the chains of a block: of its words of eight bytes, and of the bytes after them.
fn chains_of(block: &[u8]) -> Chains
    ensures { in_turn result ≡ side_over no_chains (words_of block.now) }
{
    let (words, rest) = block.as_chunks::<8>();
    let none = Chains {
        a: 0,
        b: 0,
        c: 0,
        d: 0,
        e: 0,
        f: 0,
        g: 0,
        h: 0,
    };
    let front = chains_of_words(none, words);
    chains_of_bytes(front, rest)
}

/// Returns the digest after one more block: after the digests of its eight chains and its length.
pub(crate) fn digest_with(digest: u64, block: &[u8]) -> u64
    ensures { result ≡ digest_with digest block.now }
{
    let chains = chains_of(block);
    let a = digest_by(digest, chains.a);
    let b = digest_by(a, chains.b);
    let c = digest_by(b, chains.c);
    let d = digest_by(c, chains.d);
    let e = digest_by(d, chains.e);
    let f = digest_by(e, chains.f);
    let g = digest_by(f, chains.g);
    let h = digest_by(g, chains.h);
    digest_by(h, block.len() as u64)
}

/// Returns the digest of the data blocks of the section that is being read, after one more item:
/// data begin after the mark that ends the labels.
pub(crate) fn digest_in(digest: u64, phase: &Phase, item: Item<'_>) -> u64
    ensures { result ≡ digest_in digest phase.now (tape_item item.entry) }
{
    match (phase, item) {
        (Phase::Data(_), Item::Block(bytes)) => digest_with(digest, bytes),
        (Phase::Second(_) | Phase::Headers(_), Item::Mark) => 0,
        _ => digest,
    }
}
