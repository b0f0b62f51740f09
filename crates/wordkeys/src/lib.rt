//! Keys of hash maps of words, which are short: the hashes of `RandomState` cost some two hundred instructions a word, these some forty.
#![tactic(auto)]

mod keys;

pub use keys::WordKeys;
