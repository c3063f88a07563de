// Written by tools/tables.py from tools/table_list.py: do not edit.
//! The texts that make the tables.

ghost use Rattle.std.specs.Prelude.{◌≡◌, ◌<◌};
ghost use Rattle.kcr_tables.specs.Creation.{text_at};

/// How many tables there are.
pub const TABLE_COUNT: usize = 17;

/// The text that makes the table of this position, counted from 0.
pub fn create_table_sql(at: usize) -> &'static str
    requires { at < 17 }
    ensures { result.now ≡ text_at at }
{
    match at {
        0 =>
            "CREATE TABLE people (who TEXT NOT NULL, name TEXT NOT NULL, PRIMARY KEY (who)) STRICT",
        1 =>
            "CREATE TABLE trainings (who TEXT NOT NULL, role TEXT NOT NULL, since INT NOT NULL, until INT NOT NULL, PRIMARY KEY (who, role, since, until)) STRICT",
        2 =>
            "CREATE TABLE appointments (place TEXT NOT NULL, since INT NOT NULL, who TEXT NOT NULL, until INT, PRIMARY KEY (place, since), UNIQUE (who, since, place)) STRICT",
        3 =>
            "CREATE TABLE boxes (facility TEXT NOT NULL, box INT NOT NULL, place TEXT NOT NULL, PRIMARY KEY (facility, box)) STRICT",
        4 =>
            "CREATE TABLE safes (facility TEXT NOT NULL, safe INT NOT NULL, state INT NOT NULL, PRIMARY KEY (facility, safe)) STRICT",
        5 =>
            "CREATE TABLE bags (serial TEXT NOT NULL, spot TEXT NOT NULL, PRIMARY KEY (serial)) STRICT",
        6 =>
            "CREATE TABLE items (code TEXT NOT NULL, facility TEXT, serial TEXT, PRIMARY KEY (code), UNIQUE (serial, code)) STRICT",
        7 =>
            "CREATE TABLE ceremonies (number INT NOT NULL, facility TEXT NOT NULL, day INT NOT NULL, state INT NOT NULL, opened INT, closed INT, PRIMARY KEY (number)) STRICT",
        8 =>
            "CREATE TABLE marks (ceremony INT NOT NULL, at INT NOT NULL, PRIMARY KEY (ceremony)) STRICT",
        9 =>
            "CREATE TABLE steps (ceremony INT NOT NULL, step INT NOT NULL, activity TEXT NOT NULL, seats TEXT NOT NULL, state INT NOT NULL, at INT, PRIMARY KEY (ceremony, step)) STRICT",
        10 =>
            "CREATE TABLE seatings (ceremony INT NOT NULL, step INT NOT NULL, seat INT NOT NULL, who TEXT NOT NULL, PRIMARY KEY (ceremony, step, seat)) STRICT",
        11 =>
            "CREATE TABLE sheet (who TEXT NOT NULL, at INT NOT NULL, ceremony INT NOT NULL, way INT NOT NULL, PRIMARY KEY (who, at)) STRICT",
        12 =>
            "CREATE TABLE exceptions (ceremony INT NOT NULL, exception INT NOT NULL, text TEXT NOT NULL, at INT NOT NULL, passed INT, PRIMARY KEY (ceremony, exception)) STRICT",
        13 => "CREATE TABLE versions (number INT NOT NULL, PRIMARY KEY (number)) STRICT",
        14 =>
            "CREATE TABLE keys (\"key\" TEXT NOT NULL UNIQUE, accepted INTEGER PRIMARY KEY, command TEXT NOT NULL, reply TEXT NOT NULL) STRICT",
        15 =>
            "CREATE TABLE stays (who TEXT NOT NULL, since INT NOT NULL, ceremony INT NOT NULL, until INT, PRIMARY KEY (who, since), UNIQUE (ceremony, since, who)) STRICT",
        _ =>
            "CREATE TABLE withdrawals (who TEXT NOT NULL, role TEXT NOT NULL, since INT NOT NULL, until INT NOT NULL, day INT NOT NULL, PRIMARY KEY (who, role, since, until)) STRICT",
    }
}
