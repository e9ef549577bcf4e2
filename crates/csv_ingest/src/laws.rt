//! Laws of reading.
ghost use Rattle.table_schema.specs.declared.field.Schema.{Schema};
ghost use Rattle.table_schema.specs.Valid.{IsValidSchema};
ghost use Rattle.csv_row.specs.Columns.{DefaultsFit};
ghost use Rattle.csv_row.specs.Row.{csv_limits};
ghost use Rattle.csv_ingest.specs.Rows.{number_rows_in, rows_in};
ghost use Rattle.csv_ingest.specs.Unicode.{RowsAreUnicode};
ghost use Rattle.std.specs.Prelude.{◌≡◌, ◌≢◌, ℕ, List, Ok, Err};
ghost use Rattle.table_schema.specs.declared.field.Field.{Field};
ghost use Rattle.csv_row.specs.declared.fault.CsvFault.{CsvFault};
ghost use Rattle.csv_row.specs.declared.fault.CsvFault.TheVariants.{TooManyColumns};
ghost use Rattle.table_schema.specs.ValidTable.{AreRows};
ghost use Rattle.values.specs.declared.value.Value.{Value};

/// The default of each field of a valid schema is of the field's kind.
pub fn defaults_law()
    ensures { (schema : Schema) → IsValidSchema schema → DefaultsFit schema.fields }
{}

/// What a text is read as, by a valid schema or by its own header, are rows of the table, and no
/// more than there may be. By a schema there are never too many columns.
pub fn rows_law()
    ensures schema { (schema : Schema) (records : List (List (List ℕ))) (rows : List (List Value))
        → IsValidSchema schema → rows_in csv_limits schema.fields records ≡ Ok rows
        → AreRows schema.fields rows }
    ensures numbers { (records : List (List (List ℕ))) (table : Schema × List (List Value))
        → number_rows_in csv_limits records ≡ Ok table → AreRows table.0.fields table.1 }
    ensures columns { (fields : List Field) (records : List (List (List ℕ))) (fault : CsvFault)
        → rows_in csv_limits fields records ≡ Err fault → fault ≢ TooManyColumns }
{}

/// Texts in rows are UTF-8 where the defaults of the fields are.
pub fn unicode_law()
    ensures { RowsAreUnicode }
{}
