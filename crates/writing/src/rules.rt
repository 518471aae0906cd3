// Rules: WHEN a trigger IF a condition THEN assignments, and `;`.
ghost use Rattle.std.specs.Prelude.{◌+◌, ◌≤◌, map, length};
ghost use Rattle.laws.specs.Quoted.{bytes};
ghost use Rattle.model.specs.Result.{pair};
ghost use Rattle.table.specs.inner.Flat.{Placed};
ghost use Rattle.table.specs.inner.Fits.{RuleFits};
ghost use Rattle.table.specs.Link.{literal_of, assignments_of, rule_of};
ghost use Rattle.writing.specs.inner.Puts.{longest, PutsOn};
ghost use Rattle.writing.specs.inner.Written.{separated, test_bytes, literal_bytes, condition_bytes, assign_bytes, rule_bytes};
ghost use Rattle.writing.specs.inner.Spelled.{spelled_value, spelled_pair, paired};

use crate::sheet::Sheet;
use crate::spelling::Spelling;
use table::{Literal, Rule};

impl Sheet<'_> {
    // Puts a value of a slot: its name, or NONE for 0.
    fn put_value(&mut self, spelling: Spelling, slot: u8, value: u8)
        requires { Placed slot value × (self.old.at + length (spelled_value spelling.text.now spelling.valuespans.now (pair slot value)) ≤ longest) }
        ensures { PutsOn self.old (spelled_value spelling.entry.text.now spelling.entry.valuespans.now (pair slot value)) self.new }
    {
        if value == 0 {
            self.put(b"NONE");
            return;
        }
        self.put_name(
            spelling.text,
            spelling.valuespans[table::place(slot, value)],
        );
    }

    // Puts the name of a slot, a mark, and a value of it.
    #[tactic(auto, using(crate::proofs::Putting::room_first, crate::proofs::Putting::room_rest), unfolding(crate::specs::inner::Spelled::spelled_pair))]
    pub fn put_pair(&mut self, spelling: Spelling, mark: &[u8], slot: u8, value: u8)
        requires { Placed slot value × (self.old.at + length (paired spelling mark.now (pair slot value)) ≤ longest) }
        ensures { PutsOn self.old (paired spelling.entry mark.now (pair slot value)) self.new }
    {
        self.put_name(spelling.text, spelling.slotspans[usize::from(slot)]);
        self.put(mark);
        self.put_value(spelling, slot, value);
    }

    // Puts a literal without its NOT.
    fn put_test(&mut self, spelling: Spelling, l: Literal)
        requires { Placed l.slot l.value × (self.old.at + length (test_bytes (paired spelling) (literal_of l)) ≤ longest) }
        ensures { PutsOn self.old (test_bytes (paired spelling.entry) (literal_of l)) self.new }
    {
        if l.becomes {
            self.put_pair(spelling, b" *= ", l.slot, l.value);
            return;
        }
        self.put_pair(spelling, b" |= ", l.slot, l.value);
    }

    // Puts a literal: NOT at most once.
    fn put_literal(&mut self, spelling: Spelling, l: Literal)
        requires { Placed l.slot l.value × (self.old.at + length (literal_bytes (paired spelling) (literal_of l)) ≤ longest) }
        ensures { PutsOn self.old (literal_bytes (paired spelling.entry) (literal_of l)) self.new }
    {
        if l.negated {
            self.put(b"NOT ");
        }
        self.put_test(spelling, l);
    }

    // Puts a condition: its literals with AND between them, TRUE where there are none.
    fn put_condition(&mut self, spelling: Spelling, r: Rule)
        requires { RuleFits r × (self.old.at + length (condition_bytes (paired spelling) (rule_of r).literals) ≤ longest) }
        ensures { PutsOn self.old (condition_bytes (paired spelling.entry) (rule_of r).literals) self.new }
    {
        let n = r.tested as usize;
        if n == 0 {
            self.put(b"TRUE");
            return;
        }
        self.put_literal(spelling, r.literals[0]);
        for j in 1..n {
            self.put(b" AND ");
            self.put_literal(spelling, r.literals[j]);
        }
    }

    // Puts the assignments of a rule that has some, with commas between them.
    fn put_assignments(&mut self, spelling: Spelling, r: Rule)
        requires { RuleFits r × (1 ≤ r.assigned) × (self.old.at + length (separated (bytes ", ") (map (paired spelling (bytes " := ")) (assignments_of r))) ≤ longest) }
        ensures { PutsOn self.old (separated (bytes ", ") (map (paired spelling.entry (bytes " := ")) (assignments_of r))) self.new }
    {
        let first = r.assignments[0];
        self.put_pair(spelling, b" := ", first.slot, first.value);
        for j in 1..r.assigned as usize {
            let a = r.assignments[j];
            self.put(b", ");
            self.put_pair(spelling, b" := ", a.slot, a.value);
        }
    }

    // Puts what follows THEN: one assignment alone, two or more in braces.
    fn put_assign(&mut self, spelling: Spelling, r: Rule)
        requires { RuleFits r × (1 ≤ r.assigned) × (self.old.at + length (assign_bytes (paired spelling) (assignments_of r)) ≤ longest) }
        ensures { PutsOn self.old (assign_bytes (paired spelling.entry) (assignments_of r)) self.new }
    {
        if r.assigned == 1 {
            self.put_assignments(spelling, r);
            return;
        }
        self.put(b"{ ");
        self.put_assignments(spelling, r);
        self.put(b" }");
    }

    // Puts the line of a rule.
    #[tactic(auto, using(crate::proofs::Putting::room_first, crate::proofs::Putting::room_rest), unfolding(crate::specs::inner::Written::rule_bytes, laws::specs::Quoted::bytes, laws::specs::Quoted::bytes_from))]
    pub fn put_rule(&mut self, spelling: Spelling, r: Rule)
        requires { RuleFits r × (1 ≤ r.assigned) × (self.old.at + length (rule_bytes (paired spelling) (rule_of r)) ≤ longest) }
        ensures { PutsOn self.old (rule_bytes (paired spelling.entry) (rule_of r)) self.new }
    {
        self.put(b"WHEN ");
        self.put_pair(spelling, b" *= ", r.slot, r.value);
        self.put(b" IF ");
        self.put_condition(spelling, r);
        self.put(b" THEN ");
        self.put_assign(spelling, r);
        self.put(b";\n");
    }
}
