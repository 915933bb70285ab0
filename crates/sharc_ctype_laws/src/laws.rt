// The laws of typed programs: each is the contract of a function that does nothing.

ghost use Rattle.sharc_ctype_laws.specs.{Found.EachTypeFound, Sizes.CellsAreFew, Laws.{EachNameOnce, OnlyNames}};
ghost use Rattle.sharc_ctype_laws.specs.Laws.{EachNamesItself, EachNamesOwn, EachNamesFound, EachPathFound, ArePlain};
ghost use Rattle.sharc_ctype_laws.specs.Laws.{NamesInTypes, SameKinds, MeetsConstraints, OneType, MeetsStatements};
ghost use Rattle.sharc_ctype_laws.specs.Laws.{AllFair, MeetsGlobals, WithinLimits, HasMain, OneFunctionOfName};
ghost use Rattle.sharc_ctype_laws.specs.Laws.{SpawnsNameFunctions, SpawnsThreads, ReachesFunctions, SomeTyped};

/// In a typed program at its tokens each name is referred to once.
pub fn each_name_once()
    ensures { EachNameOnce }
{}

/// And no other token is.
pub fn only_names()
    ensures { OnlyNames }
{}

/// The name of a declaration names that declaration.
pub fn each_names_itself()
    ensures { EachNamesItself }
{}

/// The variables that a function names are its own.
pub fn each_names_own()
    ensures { EachNamesOwn }
{}

/// A name names what is found of it in its scope.
pub fn each_names_found()
    ensures { EachNamesFound }
{}

/// What lock paths name is in scope where their types are read, and stays in scope as long as what has the type.
pub fn each_path_found()
    ensures { EachPathFound }
{}

/// Parameters, locals and results are no structs and no mutexes.
pub fn are_plain()
    ensures { ArePlain }
{}

/// The names in written types name what they spell.
pub fn names_in_types()
    ensures { NamesInTypes }
{}

/// What has a type is found by its tokens, and the names in its type name what they spell.
pub fn each_type_found()
    ensures { EachTypeFound }
{}

/// The type of an expression from what its names name is that of the expression in its scope.
pub fn same_kinds()
    ensures { SameKinds }
{}

/// And it is the type that C11 gives it.
pub fn meets_constraints()
    ensures { MeetsConstraints }
{}

/// And they give it no other.
pub fn one_type()
    ensures { OneType }
{}

/// Each statement meets the constraints of C11 6.8.
pub fn meets_statements()
    ensures { MeetsStatements }
{}

/// What is assigned, initialised, passed and returned agrees with what it is given to.
pub fn all_fair()
    ensures { AllFair }
{}

/// The globals of a typed program meet the constraints of C11 6.7: their lengths and their initial values.
pub fn meets_globals()
    ensures { MeetsGlobals }
{}

/// A typed program is within the limits.
pub fn within_limits()
    ensures { WithinLimits }
{}

/// So its globals have few cells, counted by the structs that it defines.
pub fn cells_are_few()
    ensures { CellsAreFew }
{}

/// A typed program has its `main`.
pub fn has_main()
    ensures { HasMain }
{}

/// And no two functions of one name: so it has one `main`.
pub fn one_function_of_name()
    ensures { OneFunctionOfName }
{}

/// What is spawned is a void function with one parameter, and not `main`.
pub fn spawns_threads()
    ensures { SpawnsThreads }
{}

/// The name in each `spawn` is that of a function of the program.
pub fn spawns_name_functions()
    ensures { SpawnsNameFunctions }
{}

/// What is reached is a function of the program, and not `main`.
pub fn reaches_functions()
    ensures { ReachesFunctions }
{}

/// There is a typed program at its tokens in the forms of the grammar: so the laws speak of something.
pub fn some_typed()
    ensures { SomeTyped }
{}
