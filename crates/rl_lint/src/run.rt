//! The program's top function.
ghost use Rattle.std.specs.Prelude.{◌≡◌, ◌⊎◌, ◌≤◌, true, false, map, None};
ghost use Rattle.std.specs.String.{string_bytes};
ghost use Rattle.rl_source.specs.Faults.{Rose};
ghost use Rattle.rl_walk.specs.Visits.{moment_of};
ghost use Rattle.rl_words.specs.Given.{given_by};
ghost use Rattle.rl_lint.specs.Endings.{status_of};
ghost use Rattle.rl_lint.specs.Refusals.{IsRefused};
ghost use Rattle.rl_lint.specs.RunEnding.{asks_tree};
ghost use Rattle.rl_lint.specs.Runs.{Runs};
ghost use Rattle.rl_lint.specs.Sinks.{sink_change};

use crate::plan::{Plan, plan_of};
use crate::stderr::write_message;
use rl_source::{Sink, Tree, write_all};
use std::alloc::Global;

/// Returns the status of a run that wrote everything it had to write.
fn status_of(finding: bool, failed: bool) -> u8
    ensures { result ≡ status_of finding failed }
{
    if failed {
        3
    } else if finding {
        1
    } else {
        0
    }
}

/// Does what the words after the program's name ask for, and returns the exit status.
///
/// | Status | Meaning |
/// |---|---|
/// | 0 | everything was written, there is no finding, and no call of the tree failed |
/// | 1 | everything was written, there is a finding, and no call of the tree failed |
/// | 2 | the words aren't a valid call, or the settings, the baseline, the certificate or what they ask for is refused |
/// | 3 | everything was written and a call of the tree failed, or the settings, baseline or certificate couldn't be read |
/// | 4 | a write to `out` failed |
/// | 5 | memory ran out; nothing was written to `out` |
///
/// A finding is an exponential verdict, a degree above `max-degree`, a certificate that doesn't hold, or two patterns that
/// were found not to match the same texts.
///
/// If the words name a settings file, it is read whole before anything else. If it can't be read or is refused, the run ends
/// there, and nothing is written to `out`. Its values replace the defaults, and values of options replace both; `compile-as`
/// affects only `check`.
///
/// If the words name a baseline, `check` reads it after the settings and before any path. If it can't be read or is refused,
/// the run ends there, and nothing is written to `out`. Otherwise the report shows the entries that the baseline doesn't know.
/// In every other action `--baseline` has no effect.
///
/// `verify` parses its pattern before it reads its file; if the pattern is refused, the file isn't read. If the file can't be
/// read or is refused, nothing is written to `out`.
///
/// Everything that a run writes is built first and then written to `out`. With status 2, 4 or 5, and if the settings, the
/// baseline or the certificate can't be read, a message is written to `err`. If a write to `err` fails, the rest of the
/// message is dropped, and the status stays the same. `check` walks over the tree from its paths, and goes on after a call
/// that failed. The other actions ask the tree for nothing but the settings file and, in `verify`, the certificate.
pub fn relint_main<T: Tree, O: Sink, E: Sink>(
    alloc: Global,
    words: &Vec<String>,
    tree: &mut T,
    out: &mut O,
    err: &mut E,
) -> u8
    ensures run { Runs (map string_bytes words.now.items)
        (moment_of T.told T.fault_count tree.old) (moment_of T.told T.fault_count tree.new)
        (sink_change O.bytes O.fault_count out.old out.new)
        (sink_change E.bytes E.fault_count err.old err.new) result }
    // The five clauses from here to `complete` follow from `run`. Each states one cause separately.
    ensures invalid { given_by (map string_bytes words.now.items) ≡ None → (result ≡ 2) ⊎ (result ≡ 5) }
    ensures write_fault { result ≡ 4 → Rose (O.fault_count out.old) (O.fault_count out.new) }
    ensures read_fault { result ≡ 3 → Rose (T.fault_count tree.old) (T.fault_count tree.new) }
    ensures refused { result ≡ 2 → IsRefused (T.told tree.old) (given_by (map string_bytes words.now.items)) }
    ensures complete { ¬ IsRefused (T.told tree.old) (given_by (map string_bytes words.now.items))
        → ¬ Rose (T.fault_count tree.old) (T.fault_count tree.new)
        → ¬ Rose (O.fault_count out.old) (O.fault_count out.new)
        → (result ≤ 1) ⊎ (result ≡ 5) }
    ensures trail { asks_tree (given_by (map string_bytes words.now.items)) ≡ false → T.told tree.new ≡ T.told tree.old }
    ensures tree_counts { T.fault_count tree.old ≤ T.fault_count tree.new }
    ensures out_counts { O.fault_count out.old ≤ O.fault_count out.new }
    ensures err_counts { E.fault_count err.old ≤ E.fault_count err.new }
{
    match plan_of(alloc, words, tree) {
        Ok(Plan::Refuses(message)) => {
            write_message(err, message.as_str());
            2
        }
        Ok(Plan::Unreadable(message)) => {
            write_message(err, message.as_str());
            3
        }
        Ok(
            Plan::Writes {
                text,
                finding,
                failed,
            },
        ) => match write_all(out, text.as_slice()) {
            Ok(()) => {
                // This writes nothing. Its contract tells the prover that `err` gains nothing.
                write_message(err, "");
                status_of(finding, failed)
            }
            Err(_) => {
                write_message(err, "relint: write fault\n");
                4
            }
        },
        Err(_) => {
            write_message(err, "relint: want of memory\n");
            5
        }
    }
}
