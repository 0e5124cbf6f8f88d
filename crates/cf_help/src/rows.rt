//! Tables of helps: rows in order, of which the first that fits is told.
ghost use Rattle.std.specs.Prelude.{◌≡◌, map, option_map};
ghost use Rattle.cf_help.specs.Rows.{◌gives◌ as row, first_fitting as first_fitting_of};
ghost use Rattle.cf_help.specs.WordsView.{row_of};

/// A row of a table: whether it fits, and its help.
#[derive(Clone, Copy)]
pub struct HelpRow<'a> {
    pub fits: bool,
    pub help: &'a [u8],
}

/// A row.
pub fn row<'a>(fits: bool, help: &'a [u8]) -> HelpRow<'a>
    ensures { row_of result ≡ row fits help.now }
{
    HelpRow { fits, help }
}

/// The help of the first row that fits.
pub fn first_fitting<'a>(rows: &[HelpRow<'a>]) -> Option<&'a [u8]>
    ensures { option_map (λ h. h.now) result ≡ first_fitting_of (map row_of rows.now) }
{
    for row in rows {
        if row.fits {
            return Some(row.help);
        }
    }
    None
}
