// What a call that is accepted reports of its sheet.
ghost use Rattle.history.specs.Reports.{SheetsReport};

// An add, a withdrawal, a print and a look at all steps report the end of the run of the sheet, and a look at the first
// steps the end of those.
pub fn sheets_report_their_ends()
    ensures { SheetsReport }
{}
