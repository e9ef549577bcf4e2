//! The table that the files of a schema and of settings make.
ghost use Rattle.std.specs.Prelude.{◌≡◌, ◌≤◌, ℕ, List, [], ◌∷◌, Some, option_map, IfOk, IfErr, IfSome, IsErrOf, Ok, length};
ghost use Rattle.outside.specs.Counts.{Rose};
ghost use Rattle.schema_json.specs.Schemas.{schema_read};
ghost use Rattle.json_keys.specs.declared.fault.KeyKind.{KeyKind};
ghost use Rattle.settings_json.specs.TableTexts.{settings_read};
ghost use Rattle.table_schema.specs.Valid.{IsValidSchema};
ghost use Rattle.table_store.specs.TableFile.{FitsTable, text_limit};
ghost use Rattle.command_words.specs.Command.{GeneratedTexts};
ghost use Rattle.command_model.specs.Create.{beside, json_in, new_table, own_table, schema_in, settings_in};
ghost use Rattle.command_model.specs.Generated.{generated_schema, generated_settings};
ghost use Rattle.command_model.specs.Gives.{StopsBy, StopsTexts};
ghost use Rattle.command_model.specs.Profile.{Front};
ghost use Rattle.command_model.specs.Touched.{Reads, ReadsFront};
ghost use Rattle.outside.specs.Seen.{seen};

use crate::input::read_input;
use command_words::{Counted, Fault, Note, Stop};
use json_keys::TextFault;
use outside::{Bytes, Seq, Shelf};
use schema_json::read_schema;
use settings_json::read_settings;
use std::alloc::Global;
use table_schema::{Schema, Settings, Table};
use table_store::TEXT_LIMIT;

/// The most rows that are generated.
pub const MOST_GENERATED: u32 = 1_048_576;

/// A table that is to be made: its texts, and what they are read as.
#[derive(Drop)]
pub struct NewTable {
    pub schema: Bytes,
    pub settings: Bytes,
    pub table: Table,
}

// The bytes of an input file in JSON.
fn read_json<I: Shelf>(alloc: Global, file: &str, inputs: &mut I) -> Result<Bytes, Stop>
    ensures bytes { IfOk result (λ bytes.
        IfSome (I.held inputs.old) (λ files. json_in file.now files ≡ Ok bytes)) }
    ensures short { IfOk result (λ bytes. length bytes ≤ text_limit) }
    ensures no_schema { (wrong : KeyKind) (path : List ℕ) →
        ¬ IsErrOf result (Stop.Refused (Note.BadSchema wrong path)) }
    ensures stops { IfErr result (StopsBy (option_map (json_in file.now) (I.held inputs.old))
        (Rose (I.read_faults inputs.old) (I.read_faults inputs.new))) }
    ensures unchanged { ¬ IsErrOf result (Stop.Fault Fault.Read) →
        I.read_faults inputs.new ≡ I.read_faults inputs.old }
    ensures reads { ReadsFront file.now text_limit
        (seen I.Shelf inputs.old) (seen I.Shelf inputs.new) }
{
    read_input(alloc, file, Counted::JsonBytes, TEXT_LIMIT, inputs)
}

// The schema that a text is.
fn schema_of(alloc: Global, text: &[u8]) -> Result<Schema, Stop>
    ensures read { IfOk result (λ schema. schema_read text.now ≡ Ok schema) }
    ensures valid { IfOk result (λ schema. IsValidSchema schema) }
    ensures stops { IfErr result
        (StopsBy (Some (beside Note.BadSchema text.now (schema_read text.now))) ⊥) }
{
    match read_schema(alloc, text) {
        Ok(schema) => Ok(schema),
        Err(TextFault::At(kind, path)) => Err(Stop::Refused(Note::BadSchema(kind, path))),
        Err(TextFault::NoMemory) => Err(Stop::Fault(Fault::Memory)),
    }
}

// The settings that a text is.
fn settings_of(alloc: Global, schema: &Schema, text: &[u8]) -> Result<Settings, Stop>
    requires { IsValidSchema schema.now }
    ensures read { IfOk result (λ settings.
        settings_read schema.now.fields text.now ≡ Ok settings) }
    ensures no_schema { (wrong : KeyKind) (path : List ℕ) →
        ¬ IsErrOf result (Stop.Refused (Note.BadSchema wrong path)) }
    ensures stops { IfErr result
        (StopsBy (Some (beside Note.BadSettings text.now
        (settings_read schema.now.fields text.now))) ⊥) }
{
    match read_settings(alloc, schema, text) {
        Ok(settings) => Ok(settings),
        Err(TextFault::At(kind, path)) => Err(Stop::Refused(Note::BadSettings(kind, path))),
        Err(TextFault::NoMemory) => Err(Stop::Fault(Fault::Memory)),
    }
}

// The text of an input file, and the schema that it is.
fn read_schema_file<I: Shelf>(
    alloc: Global,
    file: &str,
    inputs: &mut I,
) -> Result<(Bytes, Schema), Stop>
    ensures read { IfOk result (λ r.
        IfSome (I.held inputs.old) (λ files. schema_in file.now files ≡ Ok (r.0, r.1))) }
    ensures short { IfOk result (λ r. length r.0 ≤ text_limit) }
    ensures valid { IfOk result (λ r. IsValidSchema r.1) }
    ensures stops { IfErr result (StopsBy (option_map (schema_in file.now) (I.held inputs.old))
        (Rose (I.read_faults inputs.old) (I.read_faults inputs.new))) }
    ensures unchanged { ¬ IsErrOf result (Stop.Fault Fault.Read) →
        I.read_faults inputs.new ≡ I.read_faults inputs.old }
    ensures reads { ReadsFront file.now text_limit
        (seen I.Shelf inputs.old) (seen I.Shelf inputs.new) }
{
    let text = read_json(alloc, file, inputs)?;
    let schema = schema_of(alloc, text.as_slice())?;
    Ok((text, schema))
}

// The text of an input file, and the settings that it is.
fn read_settings_file<I: Shelf>(
    alloc: Global,
    schema: &Schema,
    file: &str,
    inputs: &mut I,
) -> Result<(Bytes, Settings), Stop>
    requires { IsValidSchema schema.now }
    ensures read { IfOk result (λ r. IfSome (I.held inputs.old) (λ files.
        settings_in schema.now file.now files ≡ Ok (r.0, r.1))) }
    ensures short { IfOk result (λ r. length r.0 ≤ text_limit) }
    ensures no_schema { (wrong : KeyKind) (path : List ℕ) →
        ¬ IsErrOf result (Stop.Refused (Note.BadSchema wrong path)) }
    ensures stops { IfErr result
        (StopsBy (option_map (settings_in schema.now file.now) (I.held inputs.old))
        (Rose (I.read_faults inputs.old) (I.read_faults inputs.new))) }
    ensures unchanged { ¬ IsErrOf result (Stop.Fault Fault.Read) →
        I.read_faults inputs.new ≡ I.read_faults inputs.old }
    ensures reads { ReadsFront file.now text_limit
        (seen I.Shelf inputs.old) (seen I.Shelf inputs.new) }
{
    let text = read_json(alloc, file, inputs)?;
    let settings = settings_of(alloc, schema, text.as_slice())?;
    Ok((text, settings))
}

/// The table that two input files make: the schema's comes first.
pub fn read_table<I: Shelf>(
    alloc: Global,
    schema: &str,
    settings: &str,
    inputs: &mut I,
) -> Result<NewTable, Stop>
    ensures made { IfOk result (λ new. IfSome (I.held inputs.old) (λ files.
        new_table schema.now settings.now files
        ≡ Ok (record { schema = new.schema; settings = new.settings }, new.table))) }
    ensures fits { IfOk result (λ new.
        FitsTable (record { schema = new.schema; settings = new.settings })) }
    ensures stops { IfErr result
        (StopsBy (option_map (new_table schema.now settings.now) (I.held inputs.old))
        (Rose (I.read_faults inputs.old) (I.read_faults inputs.new))) }
    ensures unchanged { ¬ IsErrOf result (Stop.Fault Fault.Read) →
        I.read_faults inputs.new ≡ I.read_faults inputs.old }
    ensures schema_alone { (wrong : KeyKind) (path : List ℕ) →
        IsErrOf result (Stop.Refused (Note.BadSchema wrong path)) →
        ReadsFront schema.now text_limit (seen I.Shelf inputs.old) (seen I.Shelf inputs.new) }
    ensures reads { Reads ((schema.now, Front text_limit) ∷ (settings.now, Front text_limit) ∷ [])
        (seen I.Shelf inputs.old) (seen I.Shelf inputs.new) }
{
    let (schema_text, schema) = read_schema_file(alloc, schema, inputs)?;
    let (settings_text, settings) = read_settings_file(alloc, &schema, settings, inputs)?;
    Ok(NewTable {
        schema: schema_text,
        settings: settings_text,
        table: Table { schema, settings },
    })
}

/// The program's own table, for so many rows that are to be generated.
pub fn own_table(alloc: Global, rows: u32) -> Result<NewTable, Stop>
    ensures made { IfOk result (λ new. own_table rows
        ≡ Ok (record { schema = new.schema; settings = new.settings }, new.table)) }
    ensures fits { IfOk result (λ new.
        FitsTable (record { schema = new.schema; settings = new.settings })) }
    ensures stops { IfErr result (StopsTexts (GeneratedTexts rows) (Some (own_table rows)) ⊥) }
{
    if rows > MOST_GENERATED {
        return Err(Stop::Refused(Note::TooLarge(Counted::Rows, u64::from(MOST_GENERATED))));
    }
    let schema_text = schema_text().to_vec(alloc)?;
    let schema = schema_of(alloc, schema_text.as_slice())?;
    let settings_text = settings_text().to_vec(alloc)?;
    let settings = settings_of(alloc, &schema, settings_text.as_slice())?;
    Ok(NewTable {
        schema: Seq::from_vec(schema_text),
        settings: Seq::from_vec(settings_text),
        table: Table { schema, settings },
    })
}

// The text of its schema.
fn schema_text() -> &'static [u8]
    ensures { result.now ≡ generated_schema }
{
    b"{\"schemaName\":\"gen\",\"dimensionFieldSpecs\":[\
{\"name\":\"a\",\"dataType\":\"STRING\"},\
{\"name\":\"b\",\"dataType\":\"LONG\"},\
{\"name\":\"c\",\"dataType\":\"LONG\"}],\
\"metricFieldSpecs\":[{\"name\":\"m\",\"dataType\":\"LONG\"}]}"
}

// The text of its settings.
fn settings_text() -> &'static [u8]
    ensures { result.now ≡ generated_settings }
{
    b"{\"tableName\":\"gen\",\"tableType\":\"OFFLINE\",\
\"tableIndexConfig\":{\"starTreeIndexConfigs\":[{\
\"dimensionsSplitOrder\":[\"a\",\"b\",\"c\"],\
\"functionColumnPairs\":[\"COUNT__*\",\"SUM__m\"],\"maxLeafRecords\":100}]}}"
}
