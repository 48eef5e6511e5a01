// Of the text of the table: it is CSV as the library `csv` writes and reads it, which follows RFC 4180.
#![tactic(auto, using(crate::proofs::Promised::texts))]

ghost use Rattle.std.specs.Prelude.{◌≡◌, ◌<◌, ◌≤◌, ◌^◌, ◌∷◌, ℕ, List, length, get_or, Option, Some};
ghost use Rattle.std.specs.Str.Parse.{digits_value};
ghost use Rattle.csv.specs.Reading.{default_config, records};
ghost use Rattle.csv.specs.Writing.{row_text};
ghost use Rattle.hourly_table.specs.Samples.{Sampled};
ghost use Rattle.hourly_table.specs.Counted.{AllBytes};
ghost use Rattle.hourly_table.specs.Table.{table};
ghost use Rattle.hourly_table.specs.Rows.{hex_number, row_text as line_text};
ghost use Rattle.hourly_promises.specs.Csv.{crlf_writer, fields_of, header_fields, records_of, AllHours};

/// A row is what a writer with CR LF writes of its three fields: none ever needs quotes.
pub fn row_is_csv()
    ensures { (hour number : ℕ) (change : Option ℕ) → hour < 2 ^ 64 → ((c : ℕ) → change ≡ Some c → c < 2 ^ 64) → line_text hour number change ≡ row_text crlf_writer (fields_of hour number change) }
{}

/// A reader finds the header, and a record of three fields for each hour from the first to the last and each number, in the
/// order asked: none is left out, and there is no other.
pub fn table_is_csv()
    ensures { (samples : List Sampled) (numbers : List ℕ) → AllBytes samples → AllHours samples → records default_config (table samples numbers) ≡ header_fields ∷ records_of samples numbers }
{}

/// A number is three hex digits that read back as it, and none of them is a lower-case letter: `F` is 70.
pub fn numbers_told()
    ensures three { (number : ℕ) → length (hex_number number) ≡ 3 }
    ensures read { (number : ℕ) → number < 4096 → digits_value 16 (hex_number number) ≡ number }
    ensures upper { (number k d : ℕ) → k < 3 → get_or (hex_number number) k d ≤ 70 }
{}
