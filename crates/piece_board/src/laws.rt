//! Invariants of every claim board, as laws. A law is the contract of a function without effect.
ghost use Rattle.piece_board.specs.Pass.{PassFacts};
ghost use Rattle.piece_board.specs.Laws.{RunsKeepClaims, RuleIsClaims};

use crate::pass::Pass;

/// Proves that the claims are true after every run of admitted events. It covers every number of
/// pieces up to 2^62, every number of seats up to 64 and every list of events. The claims are:
///
/// - Each number below `next` and the count of pieces was drawn once, by one seat. No other number
///   was drawn.
/// - A seat is finished only past the last number, and `next` never wraps.
/// - `least` is a report or the count of pieces, and at most every report.
/// - What a seat has seen is a report or the count of pieces, and `least` is at most that.
/// - A seat's reports are among its draws, each once.
pub fn every_run_keeps_its_claims()
    ensures claims { RunsKeepClaims }
{}

/// Proves that the same claims are true between any two steps of running threads. They are the rule
/// of the table, which `atomic_table` preserves through every step of every thread.
pub fn the_rule_is_the_claims()
    ensures claims { RuleIsClaims }
{}

/// Proves what is true of every pass after any calls. Each of its draws is below the count of
/// pieces and occurs once, and its reports are among them. Whatever it skipped is above what it has
/// seen. Its skips and its last draw, if any, are at most as many as its draws.
pub fn every_pass_keeps_its_facts(pass: &Pass)
    ensures facts { PassFacts pass.now }
{
    let _ = &pass.seat;
}
