// What rows are written into: rows, or arrays of as many numbers.
ghost use Rattle.std.specs.Prelude.{◌≡◌, List, ℕ, length, map};
ghost use Rattle.leastness.specs.CarriesLeast.{carries_least};
ghost use Rattle.rows.specs.inner.Rows.{RowsBounded};
ghost use Rattle.rows.specs.inner.RuleRows.{held_table};

use rows::{NUMBERS, RuleRow};
use table::RULES;

// A place that a row is written into; what it held before is of no account.
pub trait RowPlace: Copy {
    // The numbers that it holds.
    ghost numbers: { Self → List ℕ };

    // Writes a row into the place.
    fn put(&mut self, row: RuleRow)
        ensures { numbers self.new ≡ row.numbers };

    // Whether the rows in places carry the least strata.
    fn are_least(places: &[Self]) -> bool
        requires { RowsBounded (map numbers places.now) (length places.now) }
        ensures { result ≡ carries_least (held_table numbers places.now) };
}

// A row is a place itself.
impl RowPlace for RuleRow {
    ghost numbers = { λ row. row.numbers };

    fn put(&mut self, row: RuleRow) {
        *self = row;
    }

    fn are_least(places: &[RuleRow]) -> bool {
        leastness::is_least(places)
    }
}

// So are sixteen numbers, whatever they are; rows are made of those that were written, to test their strata.
impl RowPlace for [u16; NUMBERS] {
    ghost numbers = { λ row. row };

    fn put(&mut self, row: RuleRow) {
        let numbers = row.numbers;
        *self = numbers;
    }

    fn are_least(places: &[[u16; NUMBERS]]) -> bool {
        let mut rows = rows::room::<RULES>();
        'rows: for i in 0..places.len() {
            let numbers = places[i];
            rows[i] = RuleRow { numbers };
        }
        leastness::is_least(&rows[..places.len()])
    }
}

#[cfg(test)]
mod tests {
    use super::*;
    use table::{Assignment, Literal, SLOTS, Table};

    // The table of `SLOT a{b,c};WHEN a*=b IF a|=c THEN a:=c;`, with a stratum of its rule.
    fn one_rule(stratum: u16) -> Table
        ensures { result.count ≡ 1 }
    {
        let mut t = table::empty_table();
        t.slots[0].count = 2;
        t.width = 1;
        let mut r = table::empty_rule();
        r.value = 1;
        r.literals[0] = Literal {
            becomes: false,
            negated: false,
            slot: 0,
            value: 2,
        };
        r.tested = 1;
        r.assignments[0] = Assignment { slot: 0, value: 2 };
        r.assigned = 1;
        r.stratum = stratum;
        t.rules[0] = r;
        t.count = 1;
        t
    }

    // Numbers that are no row are written over, and what lies beyond the rules stays.
    #[test]
    fn numbers_written_over(rt: HostRuntime) {
        let mut counts = [0; SLOTS];
        let mut places = [[u16::MAX; NUMBERS]; 2];
        let is_admitted = crate::admit(&one_rule(1), &mut counts, &mut places).is_some();
        assert!(rt; is_admitted);
        let row: [u16; NUMBERS] = [513, 1, 1, 1, 2, 0, 0, 0, 0, 0, 0, 0, 2, 0, 0, 0];
        assert_eq!(rt; places[0], row);
        assert_eq!(rt; places[1], [u16::MAX; NUMBERS]);
        let is_other_admitted = crate::admit(&one_rule(2), &mut counts, &mut places).is_some();
        assert!(rt; !is_other_admitted);
    }
}
