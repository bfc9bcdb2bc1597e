//! Laws on keys and baselines. Each is the contract of a function that does nothing. A baseline recognizes an entry by its
//! key: the path, and the subject, which is the call, the kind of the outcome, and the degree, the exceeded limit or the cause
//! of a refusal.
ghost use Rattle.std.specs.Prelude.{◌≡◌, ◌↔◌, IsTrue, List, [], map, ℕ};
ghost use Rattle.rl_report.specs.declared.report.Entry.{Entry};
ghost use Rattle.rl_sarif.specs.Baseline.{IsBaseline};
ghost use Rattle.rl_sarif.specs.Keys.{EntryKey, key_of, same_key};
ghost use Rattle.rl_sarif.specs.Known.{unknown_positions};
ghost use Rattle.rl_sarif.specs.Laws.{IsOwnBaseline};

/// Proves that `same_key` holds for two keys if and only if they are equal.
pub fn same_keys_are_equal()
    ensures { (a b : EntryKey) → IsTrue (same_key a b) ↔ (a ≡ b) }
{}

/// Proves that a baseline with exactly the keys of some entries, in order, knows each of these entries.
pub fn entries_know_themselves()
    ensures { (entries : List Entry) → unknown_positions (map key_of entries) entries ≡ [] }
{}

/// Proves that bytes are a baseline with at most one list of keys.
pub fn baselines_hold_one_list()
    ensures { (bytes : List ℕ) (keys others : List EntryKey) → IsBaseline bytes keys → IsBaseline bytes others → keys ≡ others }
{}

/// Proves that a report in JSON is a baseline with the keys of its entries, in order, if it is of version 1 or 2 and has at
/// most 67,108,864 bytes, `max_pairs` is below 2^32, there are fewer than 2^64 entries, and they are ones that the program can
/// build.
pub fn reports_are_baselines()
    ensures { (max_degree max_pairs report : ℕ) (entries : List Entry) → IsOwnBaseline max_degree max_pairs report entries }
{}
