//! The commands of the program, and how the words of a command line name them.
ghost use Rattle.std.specs.Prelude.{◌≡◌, ℕ, Bool, Option, [], ◌∷◌, codes, get_or, map, string_bytes, IfNone, IfSome};
ghost use Rattle.part_core.specs.declared.command.Command.{Command};
ghost use Rattle.part_core.specs.Output.{HasPartitions};
ghost use Rattle.query_split.specs.declared.split.Split.{Split};
ghost use Rattle.part_core.specs.Words.{ArePartitions, AreWordsOf, IsCommandLine, IsLimit, IsNumber, rows_word, split_word};

use cluster_parts::QuadKey;
use query_split::Split;

/// The largest number of partitions.
const MOST_PARTITIONS: u64 = 65536;

/// How results are merged.
#[derive(Clone, Copy)]
pub struct Merging {
    /// Whether each row is listed once.
    pub distinct: bool,
    /// The number of rows that are left out at the beginning.
    pub offset: u64,
    /// The largest number of rows.
    pub limit: Option<u64>,
}

/// A command.
#[derive(Clone, Copy)]
pub enum Command {
    /// `split check P`: splits what `spq check` counts of a block into P partitions.
    SplitCheck(u64),
    /// `count`: counts the distinct lines of sealed texts.
    Count,
    /// `repeated`: finds the hashes of each sealed list that occur again, in it or in another one.
    Repeated,
    /// `again P`: splits the quads of a block that have a hash of one of P sealed lists into P partitions.
    Again(u64),
    /// `split terms P`: splits the terms of a block into P partitions.
    SplitTerms(u64),
    /// `needed N`: keeps the quads of a block that a query needs. The query is the first N bytes.
    Needed(u64),
    /// `first`: finds which terms are new in each of the sealed documents of a partition.
    First,
    /// `keep`: lists the new terms of a block.
    Keep,
    /// `split subject P` and `split graph P`: splits the quads of a block into P partitions.
    SplitQuads(QuadKey, u64),
    /// `unseal`: joins sealed texts into one text that is not sealed.
    Unseal,
    /// `plan lines`, `plan subject`, `plan graph` and `plan graph-with-default`: how a query is evaluated on the parts of
    /// such a split.
    Plan(Split),
    /// `merge all OFFSET LIMIT` and `merge distinct OFFSET LIMIT`: merges the results of parts. `none` is no LIMIT.
    Merge(Merging),
}

/// Returns a word of a command line, or an empty text if there are fewer words.
fn word_at(words: &[String], at: usize) -> &str
    ensures value { result.now ≡ get_or (map string_bytes words.now) at [] }
{
    match words.get(at) {
        Some(word) => word.as_str(),
        None => "",
    }
}

/// Reads a number of rows or bytes.
fn number_of(word: &str) -> Option<u64>
    ensures number { IfSome result (IsNumber word.now) }
    ensures none { IfNone result ((n : ℕ) → IsNumber word.now n → ⊥) }
{
    word.parse::<u64>().ok()
}

/// Reads a number of partitions.
fn partitions_of(word: &str) -> Option<u64>
    ensures number { IfSome result (ArePartitions word.now) }
    ensures none { IfNone result ((n : ℕ) → ArePartitions word.now n → ⊥) }
{
    match number_of(word) {
        Some(n) if 0 < n && n <= MOST_PARTITIONS => Some(n),
        _ => None,
    }
}

/// Reads the largest number of rows, or `none`.
fn limit_of(word: &str) -> Option<Option<u64>>
    ensures limit { IfSome result (IsLimit word.now) }
    ensures none { IfNone result ((limit : Option ℕ) → IsLimit word.now limit → ⊥) }
{
    match word {
        "none" => Some(None),
        _ => Some(Some(number_of(word)?)),
    }
}

/// Reads whether each row is listed once.
fn distinct_of(word: &str) -> Option<bool>
    ensures word { IfSome result (λ distinct. word.now ≡ rows_word distinct) }
    ensures none { IfNone result ((distinct : Bool) → word.now ≡ rows_word distinct → ⊥) }
{
    match word {
        "all" => Some(false),
        "distinct" => Some(true),
        _ => None,
    }
}

/// Returns the command of a word that stands alone.
fn single_command(word: &str) -> Option<Command>
    ensures words { IfSome result (AreWordsOf (word.now ∷ [])) }
    ensures none { IfNone result ((command : Command) → AreWordsOf (word.now ∷ []) command → ⊥) }
{
    match word {
        "count" => Some(Command::Count),
        "repeated" => Some(Command::Repeated),
        "first" => Some(Command::First),
        "keep" => Some(Command::Keep),
        "unseal" => Some(Command::Unseal),
        _ => None,
    }
}

/// Returns the command `plan` of the name of a split.
fn plan_of(split: &str) -> Option<Command>
    ensures words { IfSome result (AreWordsOf (codes "plan" ∷ split.now ∷ [])) }
    ensures none { IfNone result ((named : Split) → split.now ≡ split_word named → ⊥) }
{
    match split {
        "lines" => Some(Command::Plan(Split::Lines)),
        "subject" => Some(Command::Plan(Split::Subject)),
        "graph" => Some(Command::Plan(Split::Graph)),
        "graph-with-default" => Some(Command::Plan(Split::GraphWithDefault)),
        _ => None,
    }
}

/// Returns the command of a word and another one.
fn command_with_one(name: &str, word: &str) -> Option<Command>
    ensures words { IfSome result (AreWordsOf (name.now ∷ word.now ∷ [])) }
    ensures none { IfNone result ((command : Command) → AreWordsOf (name.now ∷ word.now ∷ []) command → ⊥) }
{
    match name {
        "again" => Some(Command::Again(partitions_of(word)?)),
        "needed" => Some(Command::Needed(number_of(word)?)),
        "plan" => plan_of(word),
        _ => None,
    }
}

/// Returns the command `split` of a word and a number of partitions.
fn split_of(word: &str, partitions: &str) -> Option<Command>
    ensures words { IfSome result (AreWordsOf (codes "split" ∷ word.now ∷ partitions.now ∷ [])) }
    ensures none { IfNone result ((command : Command) → AreWordsOf (codes "split" ∷ word.now ∷ partitions.now ∷ []) command → ⊥) }
{
    match word {
        "check" => Some(Command::SplitCheck(partitions_of(partitions)?)),
        "terms" => Some(Command::SplitTerms(partitions_of(partitions)?)),
        "subject" => Some(Command::SplitQuads(QuadKey::Subject, partitions_of(partitions)?)),
        "graph" => Some(Command::SplitQuads(QuadKey::Graph, partitions_of(partitions)?)),
        _ => None,
    }
}

/// Returns the command of a word and two others.
fn command_with_two(name: &str, word: &str, partitions: &str) -> Option<Command>
    ensures words { IfSome result (AreWordsOf (name.now ∷ word.now ∷ partitions.now ∷ [])) }
    ensures none { IfNone result ((command : Command) → AreWordsOf (name.now ∷ word.now ∷ partitions.now ∷ []) command → ⊥) }
{
    match name {
        "split" => split_of(word, partitions),
        _ => None,
    }
}

/// Returns the command `merge` of its three words.
fn merge_of(rows: &str, offset: &str, limit: &str) -> Option<Command>
    ensures words { IfSome result (AreWordsOf (codes "merge" ∷ rows.now ∷ offset.now ∷ limit.now ∷ [])) }
    ensures none { IfNone result ((command : Command)
        → AreWordsOf (codes "merge" ∷ rows.now ∷ offset.now ∷ limit.now ∷ []) command → ⊥) }
{
    let distinct = distinct_of(rows)?;
    let offset = number_of(offset)?;
    let limit = limit_of(limit)?;
    Some(Command::Merge(Merging {
        distinct,
        offset,
        limit,
    }))
}

/// Returns the command of a word and three others.
fn command_with_three(name: &str, rows: &str, offset: &str, limit: &str) -> Option<Command>
    ensures words { IfSome result (AreWordsOf (name.now ∷ rows.now ∷ offset.now ∷ limit.now ∷ [])) }
    ensures none { IfNone result ((command : Command)
        → AreWordsOf (name.now ∷ rows.now ∷ offset.now ∷ limit.now ∷ []) command → ⊥) }
{
    match name {
        "merge" => merge_of(rows, offset, limit),
        _ => None,
    }
}

/// Reads the words of a command line, of which the first is the program's name (`IsCommandLine`).
///
/// It returns None if they are those of no command. A number of partitions is from 1 to 65,536.
pub fn read_command(words: &[String]) -> Option<Command>
    ensures words { IfSome result (IsCommandLine (map string_bytes words.now)) }
    ensures partitions { IfSome result HasPartitions }
    ensures none { IfNone result ((command : Command) → IsCommandLine (map string_bytes words.now) command → ⊥) }
{
    let (first, second, third) = (word_at(words, 1), word_at(words, 2), word_at(words, 3));
    match words.len() {
        2 => single_command(first),
        3 => command_with_one(first, second),
        4 => command_with_two(first, second, third),
        5 => command_with_three(first, second, third, word_at(words, 4)),
        _ => None,
    }
}
