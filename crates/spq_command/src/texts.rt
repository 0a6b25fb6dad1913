//! The texts of the help.

/// The version of spq.
pub const VERSION: &str = "0.1.0";

/// The description of spq.
pub const ABOUT: &str =
    "Evaluates SPARQL SELECT queries over an N-Quads document from standard input.";

/// The description of `spq select`.
pub const ABOUT_SELECT: &str = "Evaluate a SELECT query, and write SPARQL 1.1 Query Results JSON";

/// The description of `spq check`.
pub const ABOUT_CHECK: &str =
    "Count the distinct quads, terms and named graphs, or name the first malformed line";

/// The description of `spq terms`.
pub const ABOUT_TERMS: &str = "List the distinct terms by first appearance, one on each line";

/// The command lines, in the help of spq.
pub const USAGE: &str = "spq select --query TEXT [--rows N] [--workers N] [--piece BYTES] < FILE
       spq check [--workers N] [--piece BYTES] < FILE
       spq terms [--workers N] [--piece BYTES] < FILE";

/// The text after the options, in every help.
pub const AFTER: &str = "Limits:
  --workers  1 to 64, by default 4: worker threads
  --piece    1 to 1073741824, by default 65536: least size of a block of input, in bytes
  --rows     1 to 1073741824, by default 1024: most rows of a task
  Brackets of a query are nested at most 100 deep. The document and the result are in memory.

Exit status:
  0  the result is on standard output
  1  a line of the document is malformed
  2  the query is rejected
  3  the command line is not valid, or requests the help or the version
  4  out of memory, or a worker thread could not be started
  5  reading standard input or writing standard output failed
  With 1 to 5, standard output has one line that begins with 'error:', and standard error says more.

Examples:
  spq select --query 'SELECT ?o { <http://e/a> <http://e/p> ?o }' < FILE.nq
  zcat FILE.nq.gz | spq check --workers 8
";
