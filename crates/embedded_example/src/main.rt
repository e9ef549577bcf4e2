//! A store inside a program, in memory. The visits of June come from a CSV text and those of July
//! from the program, and queries are answered over both. Then cursors take turns over the same
//! visits, while those of June are put right.
#![tactic(auto)]

mod months;
mod turns;

ghost use Rattle.std.specs.Prelude.{IfOk};
ghost use Rattle.embedded.specs.Making.{texts_of};
ghost use Rattle.embedded_example.specs.Visits.{AreReplies};

use embedded::{Fault, Store};
use memory_devices::MemoryDepot;
use months::{Ready, Stop, both_months, make_ready};
use outside::{Bytes, Name, Seq};
use std::alloc::{AllocError, Global};
use std::io;
use std::io::Write;
use turns::take_turns;
use values::{Row, Rows, Value};

const SCHEMA: &str = r#"{
  "schemaName": "visits",
  "dimensionFieldSpecs": [
    {"name": "country", "dataType": "STRING"},
    {"name": "browser", "dataType": "STRING"}
  ],
  "metricFieldSpecs": [
    {"name": "impressions", "dataType": "LONG"}
  ]
}"#;

// A tree over the countries, with a sum.
const SETTINGS: &str = r#"{
  "tableName": "visits",
  "tableType": "OFFLINE",
  "tableIndexConfig": {
    "starTreeIndexConfigs": [{
      "dimensionsSplitOrder": ["country"],
      "functionColumnPairs": ["SUM__impressions"],
      "maxLeafRecords": 1
    }]
  }
}"#;

const JUNE: &str = "country,browser,impressions
CH,Firefox,120
CH,Safari,80
NZ,Firefox,200
NZ,Chrome,50
PE,Safari,40
";

// The visits of June, put right.
const CORRECTED: &str = "country,browser,impressions
CH,Firefox,120
NZ,Firefox,260
";

// The tree answers this one.
const BY_COUNTRY: &str = "SELECT country, SUM(impressions) FROM visits GROUP BY country";

const MOST: &str = "SELECT MAX(impressions) FROM visits WHERE browser = 'Safari'";

const BY_BROWSER: &str =
    "SELECT browser, COUNT(*), AVG(impressions) FROM visits GROUP BY browser ORDER BY COUNT(*) DESC LIMIT 1";

// The replies to the three queries over the visits of June and of July.
fn report(
    alloc: Global,
    schema: &str,
    settings: &str,
    june: &str,
    july: &Rows,
) -> Result<(Bytes, Bytes, Bytes), Fault>
    ensures { IfOk result (AreReplies (texts_of schema.now settings.now) june.now july.now
        BY_COUNTRY.now MOST.now BY_BROWSER.now) }
{
    let depot = MemoryDepot::new(alloc, Seq::new(alloc), Seq::new(alloc))?;
    let mut visits = Store::create(alloc, depot, schema.as_bytes(), settings.as_bytes())?;
    visits.build("june", june.as_bytes())?;
    visits.build_rows("july", july)?;
    let by_country = visits.query(BY_COUNTRY)?;
    let most = visits.query(MOST)?;
    let by_browser = visits.query(BY_BROWSER)?;
    Ok((by_country, most, by_browser))
}

// The replies of two cursors, one from before the visits of June were put right.
fn turned(alloc: Global, july: &Rows) -> Result<(Bytes, Bytes), Stop> {
    let mut depot = both_months(alloc, SCHEMA, SETTINGS, JUNE, july)?;
    let Ready {
        table,
        early,
        late,
        rows,
    } = make_ready(alloc, &mut depot, BY_COUNTRY, CORRECTED)?;
    let replies = take_turns(alloc, &mut depot, &table, early, late, "june", rows)?;
    Ok(replies)
}

fn visit(alloc: Global, country: &str, browser: &str, shown: i64) -> Result<Row, AllocError> {
    let mut row = Seq::with_capacity(alloc, 3)?;
    row.push(Value::Text(Name::from_text(alloc, country)?))?;
    row.push(Value::Text(Name::from_text(alloc, browser)?))?;
    row.push(Value::Whole(shown))?;
    Ok(row)
}

fn main(rt: HostRuntime) -> io::Result<()> {
    let alloc = rt.alloc();
    let mut july = Seq::new(alloc);
    july.push(visit(alloc, "NZ", "Safari", 30)?)?;
    july.push(visit(alloc, "PE", "Chrome", 60)?)?;
    july.push(visit(alloc, "CH", "Safari", 10)?)?;
    match report(alloc, SCHEMA, SETTINGS, JUNE, &july) {
        // By hand: CH 120 + 80 + 10, NZ 200 + 50 + 30, PE 40 + 60; of Safari 80, 40, 30 and 10.
        Ok((by_country, most, by_browser)) => {
            let mut out = rt.stdout();
            out.write_all(by_country.as_slice())?;
            out.write_all(most.as_slice())?;
            out.write_all(by_browser.as_slice())?;
        }
        Err(why) => println!(rt; "refused: {why:?}")?,
    }
    match turned(alloc, &july) {
        // By hand: as above; then CH 120 + 10, NZ 260 + 30, PE 60.
        Ok((early, late)) => {
            let mut out = rt.stdout();
            out.write_all(early.as_slice())?;
            out.write_all(late.as_slice())
        }
        Err(why) => println!(rt; "refused: {why:?}"),
    }
}
