//! What the definitions say of short command lines.

ghost use Rattle.std.specs.Prelude.{◌≡◌, ◌↔◌, ◌<◌, ◌≤◌, ◌^◌, ℕ, List, [], ◌∷◌, Some, None, false, codes, decimal};
ghost use Rattle.std.specs.Str.Parse.{starts_with_minus};
ghost use Rattle.command_words.specs.CommandLine.{number_in, request_of, plain_check, plain_watch, plain_replay};

/// A number in a range has one text, its decimal digits, and a word that is no such text writes none.
pub fn each_number_has_one_text()
    ensures { (least most number : ℕ) (word : List ℕ) → most < 2 ^ 64 →
        (number_in least most word ≡ Some number) ↔ ((least ≤ number) × (number ≤ most) × (word ≡ decimal number)) }
{}

/// `check NAME` checks against the model NAME with all defaults, where NAME does not begin with `-`.
pub fn one_name_is_a_check()
    ensures { (name : List ℕ) → starts_with_minus name ≡ false → request_of (codes "check" ∷ name ∷ []) ≡ Some (plain_check name) }
{}

/// `check -- NAME` does so for each NAME.
pub fn each_name_behind_hyphens_is_a_check()
    ensures { (name : List ℕ) → request_of (codes "check" ∷ codes "--" ∷ name ∷ []) ≡ Some (plain_check name) }
{}

/// `watch NAME` watches by the model NAME with all defaults, where NAME does not begin with `-`.
pub fn one_name_is_a_watch()
    ensures { (name : List ℕ) → starts_with_minus name ≡ false → request_of (codes "watch" ∷ name ∷ []) ≡ Some (plain_watch name) }
{}

/// `watch -- NAME` does so for each NAME.
pub fn each_name_behind_hyphens_is_a_watch()
    ensures { (name : List ℕ) → request_of (codes "watch" ∷ codes "--" ∷ name ∷ []) ≡ Some (plain_watch name) }
{}

/// `replay NAME LOG` replays on the log LOG by the model NAME with all defaults, where neither begins with `-`.
pub fn two_names_are_a_replay()
    ensures { (name log : List ℕ) → starts_with_minus name ≡ false → starts_with_minus log ≡ false →
        request_of (codes "replay" ∷ name ∷ log ∷ []) ≡ Some (plain_replay name log) }
{}

/// `replay -- NAME LOG` does so for each NAME and LOG.
pub fn each_two_names_behind_hyphens_are_a_replay()
    ensures { (name log : List ℕ) → request_of (codes "replay" ∷ codes "--" ∷ name ∷ log ∷ []) ≡ Some (plain_replay name log) }
{}

/// No words at all are refused, and so are `check` and `watch` without a name.
pub fn too_few_words_are_refused()
    ensures { (request_of [] ≡ None) × (request_of (codes "check" ∷ []) ≡ None) × (request_of (codes "watch" ∷ []) ≡ None) }
{}

/// `replay` with one name is refused.
pub fn a_replay_without_a_log_is_refused()
    ensures { (name : List ℕ) → starts_with_minus name ≡ false → request_of (codes "replay" ∷ name ∷ []) ≡ None }
{}

/// `check` with two names is refused, and so is `watch`.
pub fn two_names_are_refused()
    ensures { (name other : List ℕ) → starts_with_minus name ≡ false → starts_with_minus other ≡ false →
        (request_of (codes "check" ∷ name ∷ other ∷ []) ≡ None) × (request_of (codes "watch" ∷ name ∷ other ∷ []) ≡ None) }
{}
