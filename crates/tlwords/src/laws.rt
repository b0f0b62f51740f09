//! Laws of the running words: each function does nothing, and its contract is the law.
#![tactic(auto)]

ghost use Rattle.std.specs.Prelude.{ℕ, List};
ghost use Rattle.tlwords.specs.Rule.{Start};
ghost use Rattle.tlwords.specs.Events.{ClockLoadIsEvent, LookIsEvent, LoadIsEvent, RelookIsEvent, TakeIsEvent, DrawIsEvent, CheckIsEvent, StoreIsEvent, ReleaseIsEvent};

use crate::law::Law;

/// A step on the clock or on a word of a cell, of each of the nine kinds that `begin`, `read`, `commit` and `learn` have in their code, is
/// one event of the machine of `tlcore`: in every table that keeps the rule there is a world that shows the words and the seats before the
/// step, and one that shows those after it, and the machine goes from the one to the other by the action of the step's kind. The law knows
/// a step by what it finds and what it tells its seat; it doesn't say which steps a call makes.
///
/// Loads of the spare word, by which a pass sees the history so far or notes a call that wrote nothing, are no steps of the machine; nor
/// are steps on the store's words.
pub fn running_steps<L: Law>()
    // A run begins: a load of the clock.
    ensures clock_load { (setting : L.Setting) (base : List ℕ) (room : ℕ) (opened : Start)
        → ClockLoadIsEvent L.terms setting base room opened }
    // A read: a look at the lock word, a load of the value word, and a second look.
    ensures look { (setting : L.Setting) (base : List ℕ) (room : ℕ) (opened : Start) → LookIsEvent L.terms setting base room opened }
    ensures load { (setting : L.Setting) (base : List ℕ) (room : ℕ) (opened : Start) → LoadIsEvent L.terms setting base room opened }
    ensures second_look { (setting : L.Setting) (base : List ℕ) (room : ℕ) (opened : Start)
        → RelookIsEvent L.terms setting base room opened }
    // A commit: the locks are taken, a number is drawn, the other reads are checked, the values are stored, and the locks are released.
    ensures take { (setting : L.Setting) (base : List ℕ) (room : ℕ) (opened : Start) → TakeIsEvent L.terms setting base room opened }
    ensures draw { (setting : L.Setting) (base : List ℕ) (room : ℕ) (opened : Start) → DrawIsEvent L.terms setting base room opened }
    ensures check { (setting : L.Setting) (base : List ℕ) (room : ℕ) (opened : Start) → CheckIsEvent L.terms setting base room opened }
    ensures store { (setting : L.Setting) (base : List ℕ) (room : ℕ) (opened : Start) → StoreIsEvent L.terms setting base room opened }
    ensures release { (setting : L.Setting) (base : List ℕ) (room : ℕ) (opened : Start) → ReleaseIsEvent L.terms setting base room opened }
{}
