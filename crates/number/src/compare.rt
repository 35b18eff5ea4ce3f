// `ComparisonOperator` of rule.rs.
ghost use Rattle.std.specs.Prelude.{◌≡◌};
ghost use Rattle.number.specs.Compare.{compare_f64};

use crate::constants::H_TOL;
use crate::order::abs;

#[derive(Clone, Copy)]
pub enum ComparisonOperator {
    Eq,
    Ne,
    Gt,
    Lt,
    Ge,
    Le,
}

impl ComparisonOperator {
    // Two numbers compared with the tolerance of a head.
    pub fn compare_f64(self, lhs: f64, rhs: f64) -> bool
        ensures { result ≡ compare_f64 self lhs rhs }
    {
        let diff = lhs - rhs;
        // In the order of the manual's list: =, <>, <, >, <=, >=.
        match self {
            ComparisonOperator::Eq => abs(diff) <= H_TOL,
            ComparisonOperator::Ne => abs(diff) > H_TOL,
            ComparisonOperator::Lt => diff < -H_TOL,
            ComparisonOperator::Gt => diff > H_TOL,
            ComparisonOperator::Le => diff <= H_TOL,
            ComparisonOperator::Ge => diff >= -H_TOL,
        }
    }
}
