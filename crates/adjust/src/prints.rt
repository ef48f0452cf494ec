// The print unit, in which heights are printed.
ghost use Rattle.std.specs.Prelude.{◌≡◌, pos};
ghost use Rattle.adjust.specs.Prints.{prints_of, is_tenths};
ghost use Rattle.adjust.specs.code.Named.{print_unit_named};

// Whole millimetres, or tenths of them, the usual print.
#[derive(Clone, Copy, PartialEq, Eq)]
pub enum PrintUnit {
    Millimetres = 1,
    Tenths = 10,
}

impl PrintUnit {
    // How many of it are a millimetre.
    pub(crate) fn prints(self) -> i64
        ensures { result ≡ pos (prints_of self) }
    {
        self as i64
    }

    pub fn is_tenths(self) -> bool
        ensures { result ≡ is_tenths self }
    {
        self == PrintUnit::Tenths
    }
}

// The print unit that a number asks for; none where it is neither 1 nor 10. No `TryFrom`, as of the numbers of an opening beside which it is asked.
pub fn print_unit_named(prints: i64) -> Option<PrintUnit>
    ensures { result ≡ print_unit_named prints }
{
    match prints {
        1 => Some(PrintUnit::Millimetres),
        10 => Some(PrintUnit::Tenths),
        _ => None,
    }
}
