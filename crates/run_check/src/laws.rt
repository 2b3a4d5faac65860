//! A script and the report of a run of it determine the run.
ghost use Rattle.run_check.specs.Fronts.{WrongLinesAreFirst};
ghost use Rattle.run_check.specs.Progress.{ApplicationsGoOn, NextCallsAreKnown, NextCallsMayCome};
ghost use Rattle.run_check.specs.Judged.{JudgedIsAnswered};
ghost use Rattle.run_check.specs.Merged.{ReceiptsAreMerged};
ghost use Rattle.run_check.specs.Places.{PlacesGoOn};
ghost use Rattle.run_check.specs.TablePlaces.{TablePlacesGoOn};
ghost use Rattle.run_check.specs.TableProgress.{ApplicationsGoOnAtTables, NextTableCallsAreKnown, NextTableCallsMayCome};
ghost use Rattle.run_check.specs.Determined.{ReportsTellRuns, NextEntriesAreOne, NextTableEntriesAreOne};

/// Two runs of a script have the same report only if they have the same histories, of the bus
/// and of the tables. For behind a history that is under way each application has one next entry:
/// its script says which call it makes, and the machine what it is answered. So the number of the
/// application, with which a line on an entry begins, says which entry it is.
pub fn reports_tell_runs()
    ensures reports { ReportsTellRuns }
    ensures next { NextEntriesAreOne }
    ensures next_at_tables { NextTableEntriesAreOne }
{}

/// If a text must begin with every run of whole lines that the report of some run and the bytes
/// share, and some run's report begins with the text, then the first line in which the bytes differ
/// from the text is the first wrong one.
pub fn wrong_lines_are_first()
    ensures { WrongLinesAreFirst }
{}

/// A report that is judged line by line, each line by the entries before it, is answered: Yes if
/// it is the report of a run of the script, and else No with the number of the first line up to
/// which it is no run's.
pub fn judged_reports_are_answered()
    ensures { JudgedIsAnswered }
{}

/// Which entry of the bus an application has next: its call is the one that comes next by the
/// application's lines and its entries so far, and its answer the machine's. And each such entry
/// may come next.
pub fn next_calls_are_known()
    ensures known { NextCallsAreKnown }
    ensures may_come { NextCallsMayCome }
    ensures goes_on { ApplicationsGoOn }
{}

/// The same of the tables.
pub fn next_table_calls_are_known()
    ensures known { NextTableCallsAreKnown }
    ensures may_come { NextTableCallsMayCome }
    ensures goes_on { ApplicationsGoOnAtTables }
{}

/// Behind a history of the bus that is under way, an application has to make what its lines owe
/// from its place on: past the lines that the bus doesn't see, and behind each answer.
pub fn places_go_on()
    ensures { PlacesGoOn }
{}

/// The same of the tables.
pub fn table_places_go_on()
    ensures { TablePlacesGoOn }
{}

/// In a run the receipts of an application are those that its lines made at each service, in the
/// order of its lines: what is kept at its two places is what the report has.
pub fn receipts_are_merged()
    ensures { ReceiptsAreMerged }
{}
