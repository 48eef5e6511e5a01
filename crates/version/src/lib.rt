// The version of the repository: this one place. Programs print it with `--version`; `docs/CHANGES.md` says what each brought.
#![tactic(auto)]

/// The version, as `docs/CHANGES.md` has it.
pub const VERSION: &str = "0.4.1";
