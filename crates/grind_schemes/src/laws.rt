//! What holds of every scheme. Each law is a call without a body: who makes the call knows the law.
ghost use Rattle.grind_schemes.specs.Instances.{StandsForTheInstance, OneInstance};
ghost use Rattle.grind_schemes.specs.InstanceNodes.{SchemesAddTheirInstances, InstanceNodesStay, InstanceNodesHaveTheirArguments};
ghost use Rattle.grind_schemes.specs.Laws.{FormedByArguments, VariablesByArguments};

/// A head at its arguments is well formed exactly where they are, and it asks for arguments of their sorts.
pub fn formed_by_arguments()
    ensures { FormedByArguments }
{}

/// A variable stands in a head at its arguments exactly where it stands in one of them.
pub fn variables_by_arguments()
    ensures { VariablesByArguments }
{}

/// The node that a scheme becomes among nodes stands for its instance.
pub fn stands_for_the_instance()
    ensures { StandsForTheInstance }
{}

/// In a table at most one node stands for an instance.
pub fn one_instance()
    ensures { OneInstance }
{}

/// What a scheme adds to nodes are the absent nodes of its instance, arguments first, and nothing else.
pub fn schemes_add_their_instances()
    ensures { SchemesAddTheirInstances }
{}

/// Where the nodes grow, the nodes of an instance stay.
pub fn instance_nodes_stay()
    ensures { InstanceNodesStay }
{}

/// A node of an instance is one of the substitution, or its arguments are nodes of the instance.
pub fn instance_nodes_have_their_arguments()
    ensures { InstanceNodesHaveTheirArguments }
{}
