//! What a report tells of the histories that it reports.
ghost use Rattle.std.specs.Prelude.{◌≡◌, ℕ, List, All, IsTrue};
ghost use Rattle.fsw_base.specs.Limits.{Limits};
ghost use Rattle.bus_words.specs.declared.history.Entry.{Entry};
ghost use Rattle.bus_words.specs.declared.receipts.Receipt.{Receipt};
ghost use Rattle.bus_words.specs.Machine.{IsLegal};
ghost use Rattle.tbl_words.specs.declared.history.Entry.{Entry as TableEntry};
ghost use Rattle.tbl_words.specs.Machine.{IsLegal as AreLegalTables};
ghost use Rattle.run_report.specs.BusText.{entries_text};
ghost use Rattle.run_report.specs.CounterText.{BusFigures, TableFigures};
ghost use Rattle.run_report.specs.ReadBack.{IsPlain, TellTheSame, can_answer};
ghost use Rattle.run_report.specs.Report.{report_text};
ghost use Rattle.run_report.specs.TableReadBack.{IsPlainAtTables, TablesTellTheSame, can_tables_answer};
ghost use Rattle.run_report.specs.TableText.{table_entries_text};

/// A report tells who made each call and what it was answered: two histories with the same lines,
/// and so those of two runs with the same report, have as many entries, of the same applications
/// and with the same answers, at the bus and at the tables. Names must be words of visible ASCII
/// characters, that of a create, a find, a registration or a share maybe empty, numbers must have
/// 32 bits, and each answer must be one that its call can get, as it is in every legal history.
pub fn reports_tell_applications_and_answers()
    ensures lines { (one other : List Entry) → All IsPlain one → All IsPlain other →
        entries_text one ≡ entries_text other → TellTheSame one other }
    ensures table_lines { (one other : List TableEntry) → All IsPlainAtTables one →
        All IsPlainAtTables other → table_entries_text one ≡ table_entries_text other →
        TablesTellTheSame one other }
    ensures reports { (one other : List Entry) (tables others_tables : List TableEntry)
        (receipts others : List (List Receipt)) (figures shown : BusFigures)
        (table_figures tables_shown : TableFigures) → All IsPlain one → All IsPlain other →
        All IsPlainAtTables tables → All IsPlainAtTables others_tables →
        report_text one tables receipts figures table_figures ≡
        report_text other others_tables others shown tables_shown →
        TellTheSame one other × TablesTellTheSame tables others_tables }
    ensures legal { (limits : Limits) (apps : ℕ) (history : List Entry) →
        IsLegal limits apps history →
        All (λ e. IsTrue (can_answer e.call e.answer)) history }
    ensures legal_tables { (limits : Limits) (apps : ℕ) (history : List TableEntry) →
        AreLegalTables limits apps history →
        All (λ e. IsTrue (can_tables_answer e.call e.answer)) history }
{}
