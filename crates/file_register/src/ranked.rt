//! Lines in the order of a register, as the keys of a set.

ghost use Rattle.std.specs.Prelude.{◌≡◌};

use crate::line::Line;
use std::cmp::Ordering;
use std::marker::Model;

/// A line of which the account and the FITID alone are compared.
#[derive(Drop)]
pub(crate) struct Ranked {
    line: Line,
}

impl Model for Ranked {
    ghost use Rattle.file_register.specs.declared.line.Line.{Line};

    ghost Value = { Line };

    ghost view = { λ ranked. ranked.line };
}

impl Ranked {
    pub(crate) fn new(line: Line) -> Ranked
        ensures { result ≡ line }
    {
        Ranked { line }
    }

    pub(crate) fn line(&self) -> &Line
        ensures { result.now ≡ self.now }
    {
        &self.line
    }

    pub(crate) fn into_line(self) -> Line
        ensures { result ≡ self }
    {
        self.line
    }
}

impl PartialEq for Ranked {
    ghost use Rattle.std.specs.Ordering.{eq_by_cmp};
    ghost use Rattle.std.specs.Cmp.{partial_equiv_from_equiv};
    ghost use Rattle.std.proofs.lemmas.Cmp.{eq_by_cmp_equiv};
    ghost use Rattle.file_register.specs.Order.{line_cmp, line_total};

    ghost eq = { eq_by_cmp line_cmp };

    ghost laws = { partial_equiv_from_equiv (eq_by_cmp_equiv line_total) };

    fn eq(&self, other: &Ranked) -> bool {
        match self.line.compare(&other.line) {
            Ordering::Equal => true,
            Ordering::Less | Ordering::Greater => false,
        }
    }
}

impl Eq for Ranked {
    ghost use Rattle.std.proofs.lemmas.Cmp.{eq_by_cmp_equiv};
    ghost use Rattle.file_register.specs.Order.{line_total};

    ghost laws = { eq_by_cmp_equiv line_total };
}

impl PartialOrd for Ranked {
    ghost use Rattle.std.specs.Ordering.{as_partial_cmp};
    ghost use Rattle.std.specs.Cmp.{partial_order_from_total};
    ghost use Rattle.file_register.specs.Order.{line_cmp, line_total};

    ghost partial_cmp = { as_partial_cmp line_cmp };

    ghost laws = { partial_order_from_total line_total };

    fn partial_cmp(&self, other: &Ranked) -> Option<Ordering> {
        Some(self.line.compare(&other.line))
    }
}

impl Ord for Ranked {
    ghost use Rattle.std.specs.Prelude.{refl};
    ghost use Rattle.file_register.specs.Order.{line_cmp, line_total};

    ghost cmp = { line_cmp };

    ghost total = { line_total };

    ghost matches_partial_cmp = { λ _ _. refl };

    ghost matches_eq = { λ _ _. refl };

    fn cmp(&self, other: &Ranked) -> Ordering {
        self.line.compare(&other.line)
    }
}
