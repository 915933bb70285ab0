ghost use Rattle.sharc_judge.specs.{Laws.{RuleLaws, SameLaws}, Starting.EntryLaws};

use sharc_ctype_laws::laws::one_function_of_name;

// Laws of the tests. A proof above has them where its function calls one of these.

/// A rule holds exactly where no access at any place breaks it, and a list obeys exactly where each of the six holds.
pub fn rule_laws()
    ensures { RuleLaws }
{}

/// Objects, cells and modes that are found to be the same are equal, and equal ones are found to be the same.
pub fn same_laws()
    ensures { SameLaws }
{}

/// A thread may begin with a function and an argument where they are its entry, and in a legal store only there.
pub fn entry_laws()
    ensures { EntryLaws }
{
    one_function_of_name();
}
