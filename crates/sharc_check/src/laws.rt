ghost use Rattle.sharc_check.specs.Laws.{CheckLaws};

use sharc_mode::laws::mode_laws;

// Laws of the definitions. A proof above has them where its function calls this.

/// Cases have one order, and a program has one list of all its cases in order.
pub fn check_laws()
    ensures { CheckLaws }
{
    mode_laws();
}
