// What a word names, by a table of names.
ghost use Rattle.std.specs.Prelude.{◌≡◌, map};
ghost use Rattle.call_scripts.specs.Names.{named_in};

/// What the first row that has this name stands for.
pub(crate) fn named<T: Copy>(table: &[(&'static [u8], T)], word: &[u8]) -> Option<T>
    ensures { result ≡ named_in (map (λ row. (row.0.now, row.1)) table.now) word.now }
{
    for (name, meaning) in table {
        if word == *name {
            return Some(*meaning);
        }
    }
    None
}
