// Laws of the definitions. A proof above has them where its function calls this.

ghost use Rattle.sharc_mode.specs.Laws.{ModeLaws, LinkLaws};

use sharc_graph::laws::flow_laws;

/// The least assignment leaves what is settled, and gives no reason for it; every other position is private or dynamic;
/// and a program has one list of errors.
pub fn mode_laws()
    ensures { ModeLaws }
{}

/// The links join the positions of a program that an assignment, an initialiser, an argument, a return or a cast makes
/// equal, and each to the one directly below it; in the least assignment equal positions without a written mode agree,
/// and one directly below a position that is not private is dynamic; and any assignment that is enough is dynamic
/// wherever the least one is, which is enough itself.
pub fn link_laws()
    ensures { LinkLaws }
{
    flow_laws();
}
