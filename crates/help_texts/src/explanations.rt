//! What a refusal says and what to write instead, as docs/RULES.md has it. It is written by tools/pages.

/// Of each refusal, in the order of docs/RULES.md.
pub const EXPLANATIONS: [&'static [u8]; 66] = [
    b"L1 BadByte\n\
    \n\
    A byte begins no token: a byte order mark, a letter outside of ASCII, a__b, a_.\n\
    \n\
    Instead: save the file without a byte order mark. Names are ASCII letters, digits and single _;\n\
    anything else stands in comments and quoted texts alone.\n",
    b"L2 OpenString\n\
    \n\
    A quoted text does not end; the place is its quote.\n\
    \n\
    Instead: close it with \". A quote inside is written \\\".\n",
    b"L3 OpenAnnex\n\
    \n\
    A {** has no **} behind it.\n\
    \n\
    Instead: close the annex with **};. The first **} ends it, also inside of a comment.\n",
    b"S1 Syntax\n\
    \n\
    The tokens of a file have no reading. No text with the same tokens up to the place reads.\n\
    \n\
    Instead: see the grammar in docs/PROFILE.md. Often: a reserved word as a name (source, access,\n\
    repair, state in error text; bus, data, memory in core text), an index [1] in error text, a port\n\
    without direction, a member without its ;. Often too: all in the place of a point (f: error source\n\
    all {t};, f: error sink all;, f: error path all -> o;, bad -[]-> all;): write a flow, or a\n\
    condition, for each point. As the source of a transition or of a condition all is read.\n",
    b"N1 DuplicateUnit\n\
    \n\
    A second package of a name, or a second classifier of a name and item in a package.\n\
    \n\
    Instead: name each file once. Rename one of the two; a category is no part of the name, and private\n\
    parts count as public ones.\n",
    b"N2 UnknownPackage\n\
    \n\
    A package that a name refers to is not declared in the files: of the root, a classifier, a machine,\n\
    a type library.\n\
    \n\
    Instead: name the file of that package too; that of the error library (ErrorLibrary) is\n\
    examples/ErrorLibrary.aadl. A package alias must stand in the package that uses it and name a\n\
    declared package.\n",
    b"N3 UnknownClassifier\n\
    \n\
    The package is there, and the classifier is not; or a type extends an implementation, or the other\n\
    way round; or an implementation has no type.\n\
    \n\
    Instead: check the name and the part behind the dot (p::s.i). Declare the type of each\n\
    implementation in its own package.\n",
    b"N4 CyclicExtends\n\
    \n\
    The chain of what a classifier extends comes back to one of its classifiers.\n\
    \n\
    Instead: take one extends of the circle away.\n",
    b"N5 UnknownMember\n\
    \n\
    A member is refined to, and no farther classifier of the chain declares one of its kind and name.\n\
    \n\
    Instead: leave refined to out, or name the member as the extended classifier does. It cannot refine\n\
    a member of the same classifier.\n",
    b"N6 DuplicateName\n\
    \n\
    A second member of a name, of whatever kind, along the chain.\n\
    \n\
    Instead: rename it, or write refined to. Features, subcomponents and connections share one space of\n\
    names.\n",
    b"N7 UnknownType\n\
    \n\
    A type name is found nowhere, or a set stands where a type must stand.\n\
    \n\
    Instead: write use types LIB; in the annex that uses the name, or the name with its package\n\
    (lib::t). Behind extends and renames type stands a type, and no set.\n",
    b"N8 CyclicType\n\
    \n\
    A type, a set or a library leads back to itself.\n\
    \n\
    Instead: take one of the names on the way back out.\n",
    b"N9 UnknownPoint\n\
    \n\
    A propagation, flow or condition names a point that the component does not have, or not with that\n\
    side.\n\
    \n\
    Instead: name a feature of the component, a user point, or a word (processor, bindings, ..) for\n\
    which a propagation stands. Sources and outgoing conditions need an outward side, sinks and triggers\n\
    an inward one. A dotted name is no point.\n",
    b"N10 NotContained\n\
    \n\
    A set has a type that its point, its state or its error event does not declare.\n\
    \n\
    Instead: add the type to the propagation of that point, or to the set with which the state or the\n\
    event is declared, or take it out of the set. A set may name types below those that are declared,\n\
    and none above. What is declared without a set has no type.\n",
    b"N11 UnknownState\n\
    \n\
    A state that the component, or the component below that is named, does not have.\n\
    \n\
    Instead: states are those of the machine that the component uses: check use behavior, of which the\n\
    nearest classifier and there the last one counts.\n",
    b"N12 UnknownTrigger\n\
    \n\
    A name in a condition is neither an event of the component nor a point with an inward side.\n\
    \n\
    Instead: declare the event, in the machine or in the events of the component, or an in propagation\n\
    for the point.\n",
    b"N13 UnknownSubcomponent\n\
    \n\
    A name in a condition of composite states leads to no component below; also a name alone.\n\
    \n\
    Instead: write the path of a subcomponent and then its state, a.b.failed. For a point of the\n\
    component itself write in before it.\n",
    b"N14 UnknownEnd\n\
    \n\
    An end of a connection or of a propagation path means nothing.\n\
    \n\
    Instead: an end is an own point f or sub.f. A subcomponent alone is an end of an access connection\n\
    only. A path may go deeper: n.cpu.bindings.\n",
    b"N15 UnknownMachine\n\
    \n\
    use behavior names a machine that its package does not have.\n\
    \n\
    Instead: write the package and the name, errors::failstop; without the package it is the own one.\n",
    b"P1 Prototype\n\
    \n\
    A prototypes section that is not none;, or bindings ( .. ) behind a classifier.\n\
    \n\
    Instead: write the classifier that is meant in the place of the prototype.\n",
    b"P2 Array\n\
    \n\
    A feature or a subcomponent is an array.\n\
    \n\
    Instead: declare the members one by one (lane1, lane2, ..), with their connections.\n",
    b"P3 FeatureGroup\n\
    \n\
    A feature group, a connection of such, a dotted propagation, or an end of three names.\n\
    \n\
    Instead: declare its features as single ones, and connect them one by one.\n",
    b"P4 TypeProduct\n\
    \n\
    A product of error types, a * b.\n\
    \n\
    Instead: declare a type of its own for the combination.\n",
    b"P5 OrLess\n\
    \n\
    A condition k orless (..).\n\
    \n\
    Instead: ask with --profile 2, which reads it (docs/PROFILE2.md). Under the first profile say what\n\
    must fail: ormore, and, or. More events never cause less here, so \"at most\" has no meaning.\n",
    b"P6 NoErrorCondition\n\
    \n\
    noerror in a set of a condition.\n\
    \n\
    Instead: ask with --profile 2, which reads it (docs/PROFILE2.md). Under the first profile leave that\n\
    part out: that nothing comes is no cause. What may happen beside it stays caused.\n",
    b"P7 Others\n\
    \n\
    A composite clause [others]-> s to a state that is not initial.\n\
    \n\
    Instead: ask with --profile 2, which reads it (docs/PROFILE2.md). Under the first profile let others\n\
    lead to the initial state, and write the conditions of the failed states out.\n",
    b"P8 Recovery\n\
    \n\
    A recover or repair event in a machine or a component.\n\
    \n\
    Instead: ask with --profile 2, which reads it (docs/PROFILE2.md). Under the first profile leave the\n\
    event out, and look where its transitions lead. Nothing recovers in this meaning, so one back to an\n\
    initial state changes no cut set: leave it out too. One that leads to another failed state has to\n\
    stay, or what that state causes is in no listing: keep it with a condition that always holds,\n\
    Corrupt -[0 ormore (SEU)]-> SafeMode;. Where the recovery may fail to come and is to be counted,\n\
    declare it as an error event, and it stands in the sets.\n",
    b"P9 ConnectionError\n\
    \n\
    A block connection error.\n\
    \n\
    Instead: give the bus, or a component of its own in the middle, the error event and an outward\n\
    propagation.\n",
    b"P11 Mapping\n\
    \n\
    A use of mappings, type equivalences or transformations.\n\
    \n\
    Instead: write a path for each case: p1: error path i{a} -> o{b};. Where the component has an\n\
    outgoing condition that covers b at o, this hides the path: write a condition there, all -[i{a}]->\n\
    o{b};. In place of transformations write transitions or outgoing conditions.\n",
    b"P12 MachineExtends\n\
    \n\
    A machine extends another machine.\n\
    \n\
    Instead: write the events, states and transitions of both into one machine.\n",
    b"M1 FileTooLong\n\
    \n\
    A file has more than 4,194,304 bytes.\n\
    \n\
    Instead: part its packages over several files.\n",
    b"M2 TooManyFiles\n\
    \n\
    More than 64 files are named.\n\
    \n\
    Instead: put several packages into one file, and leave out those that the root does not use.\n",
    b"M13 TooMuchText\n\
    \n\
    The files have more than 16,777,216 bytes together.\n\
    \n\
    Instead: leave out the packages that the root does not use.\n",
    b"M3 TooNested\n\
    \n\
    More than 64 brackets (, [, { are open at once; the place is the first one too many.\n\
    \n\
    Instead: take parentheses out of conditions, or name parts of them by states. Look for a bracket\n\
    that is never closed.\n",
    b"M4 TooManyComponents\n\
    \n\
    The instance has more than 4,096 components.\n\
    \n\
    Instead: take a part of the system as the root.\n",
    b"M5 TooDeep\n\
    \n\
    A path has more than 32 names behind root.\n\
    \n\
    Instead: look for a component that contains itself; else take a part as the root.\n",
    b"M6 TooManyFacts\n\
    \n\
    The model has more than 262,144 facts.\n\
    \n\
    Instead: declare the narrowest types at points: a set counts all types below those that it names,\n\
    and an open side all types that are declared anywhere.\n",
    b"M7 TooManyEvents\n\
    \n\
    The model has more than 4,096 events.\n\
    \n\
    Instead: declare the narrowest types at inputs that no link feeds: each type is an event there.\n",
    b"M8 TooManyTypes\n\
    \n\
    The libraries of all files declare more than 1,024 types.\n\
    \n\
    Instead: leave out libraries that nothing uses.\n",
    b"M9 TooManyPlaces\n\
    \n\
    All formulas together have more than 4,194,304 places.\n\
    \n\
    Instead: narrow the types of points: each type of a point is a fact with a formula of its own.\n",
    b"M10 SliceTooLarge\n\
    \n\
    Of cuts, tree, report, paths and galileo: the target, or the top, depends on more than 32,768 facts.\n\
    Of paths and of galileo with --paths also: it does in the tree with and and or exchanged.\n\
    \n\
    Instead: ask for targets of parts, or take a part as the root. targets has the word large for such a\n\
    target.\n",
    b"M11 TooManySliceEvents\n\
    \n\
    Of the same commands: the target depends on more than 1,024 events, and on no more than 32,768\n\
    facts.\n\
    \n\
    Instead: as for M10; narrow the types of inputs that come from outside.\n",
    b"M12 TooManyGates\n\
    \n\
    Of tree and paths: all stages together have more than 16,000,000 places, where the target is not\n\
    constant.\n\
    \n\
    Instead: in place of tree take cuts, which needs no stages; for paths ask for targets of parts.\n\
    Large loops cost most: facts of one loop are unrolled as often as it has facts.\n",
    b"M14 TooManyLinks\n\
    \n\
    All components together have more than 1,048,576 connections, propagation paths and references of\n\
    bindings that count.\n\
    \n\
    Instead: take a part of the system as the root.\n",
    b"T1 UnknownTarget\n\
    \n\
    Of cuts, tree, report, paths, why and confirm: no fact of the model has this name.\n\
    \n\
    Instead: write PATH/state:s, PATH/in:p{lib::t} or PATH/out:p{lib::t}, with root for the root. The\n\
    type is a declared one with the package that declares it, no alias and no set, and the point\n\
    declares it or is open. A state that is declared with a set has the facts PATH/state:s{lib::t} of\n\
    its types alone.\n",
    b"K1 BadToken\n\
    \n\
    Of cuts and paths the text behind --after, of why and confirm that behind --set, is that of no set\n\
    of events.\n\
    \n\
    Instead: take the second word of a line of a listing of the same model: events in their order with +\n\
    between them, or none.\n",
    b"K2 StaleToken\n\
    \n\
    Of cuts: the digits of the token are those of another key: the page before was asked of another\n\
    root, target or greatest order, or of other bytes of files, or of files in another order. It comes\n\
    with no place and no limit; the line has the digits of the token and those of the key of what is\n\
    asked. It is a status of its own, and no variant of Code, since it alone carries values.\n\
    \n\
    Instead: begin the listing anew, or ask for the page with the words and the files of the page\n\
    before.\n",
    b"K3 NotCutSet\n\
    \n\
    Of why: the target does not hold under the set.\n\
    \n\
    Instead: take a set of the listing, or more events than one of it has.\n",
    b"V1 BadStepLine\n\
    \n\
    A line of the derivation has not the form of a step with the next number, a fact's name, events of\n\
    the set in their order, and rising uses of earlier steps; or the last line has no line feed. The\n\
    place is its first byte.\n\
    \n\
    Instead: see docs/PROFILE.md; compare with what why writes. Often: an event that is not in the set,\n\
    two blanks, a carriage return.\n",
    b"V2 WrongStep\n\
    \n\
    The events and uses of this step do not make the formula of its fact true; the place is its line.\n\
    \n\
    Instead: name each event and each earlier step that the fact needs.\n",
    b"V3 WrongEnd\n\
    \n\
    Each step is right, but there is none, or the last one is not of the target; the place is the file.\n\
    \n\
    Instead: add the steps up to the target.\n",
    b"G1 BadLine\n\
    \n\
    What stands there is no line, or the text ends in it; the place is its first byte that is not a\n\
    blank.\n\
    \n\
    Instead: see docs/PROFILE.md. Often: a name without quotes, a comment, a keyword in upper case,\n\
    which --profile 2 reads; a dynamic gate (pand, spare, fdep); an event with dorm alone; a missing ;.\n",
    b"G6 BadCount\n\
    \n\
    A gate KofN has not N inputs; the place is its line.\n\
    \n\
    Instead: count the inputs.\n",
    b"G4 DuplicateNode\n\
    \n\
    A second line of a name, of a gate or of an event, or a second toplevel; the place is that line.\n\
    \n\
    Instead: give each node a name of its own. Case counts.\n",
    b"G5 NoTop\n\
    \n\
    There is no line toplevel; the place is the file.\n\
    \n\
    Instead: write toplevel \"NAME\";.\n",
    b"G2 UnknownNode\n\
    \n\
    No line names this input, or the top; the place is the quote of the name.\n\
    \n\
    Instead: write its line; an event of which no rate is known may have prob=1.\n",
    b"G3 Cyclic\n\
    \n\
    A gate reaches itself; the place is the line of the first such gate.\n\
    \n\
    Instead: break the loop; a static tree has none.\n",
    b"G7 DynamicGate\n\
    \n\
    Under --profile 2: the keyword of a gate is that of a dynamic tree, as pand, spare, csp, wsp, hsp,\n\
    fdep, seq or mutex; the place is the gate's name. What such a gate says depends on the order of\n\
    events, or on spares, so a static tree cannot say it.\n\
    \n\
    Instead: replace pand by and, and a spare gate that shares no spare by and of its part and its\n\
    spares: the sets then hold for more orders of events than the gate does, and none is missing. A\n\
    shared spare fails its gate also where another has taken it, and fdep fails its events with its\n\
    trigger: an and in their place would lose sets.\n",
    b"R1 UnratedEvent\n\
    \n\
    Of tree with --unrated refuse: an event of the tree has no rate; its name follows. It is the first\n\
    in the order of the model. The tree would give it the probability 1. An event whose rate is the\n\
    probability written 1 counts as one without a rate.\n\
    \n\
    Instead: give the event a rate by OccurrenceDistribution with applies to, or ask without --unrated\n\
    refuse: then its probability is 1.\n",
    b"Q1 BadRequirement\n\
    \n\
    A line of the file of requirements has no reading: the place is the word that is wrong, or that\n\
    behind which one lacks. A sentence is order N, order N except TOKEN.., mixed GROUP, mixed GROUP N,\n\
    without EVENT, possible, never or probability P hours T; N has one to nine digits, P is a number\n\
    below 1, and T one above 0, both without _ and without a base.\n\
    \n\
    Instead: write a name, a target and one sentence, as R-001 root/out:torque{errors::serviceomission}\n\
    order 2; or a group of parts or of events, as parts software root.cha.sw root.chb.sw. A probability\n\
    of 1 or more asks nothing: it is mostly a slip, as 1e9 for 1e-9.\n",
    b"Q2 NoRequirement\n\
    \n\
    The file has no requirement, but comments, empty lines and groups at most; the place is the file. A\n\
    pipeline that asks for nothing must not pass.\n\
    \n\
    Instead: write a requirement, or name the file of requirements before those of the model.\n",
    b"Q3 DuplicateName\n\
    \n\
    A second group, or a second requirement, of a name; case does not count.\n\
    \n\
    Instead: give each a name of its own.\n",
    b"Q4 UnknownTarget\n\
    \n\
    The target of a requirement is the name of no fact of the model.\n\
    \n\
    Instead: take a name from targets, or from targets --all.\n",
    b"Q5 UnknownGroup\n\
    \n\
    Behind mixed stands the name of no group of the file.\n\
    \n\
    Instead: declare the group by parts or events; it may stand anywhere in the file.\n",
    b"Q6 EmptyGroup\n\
    \n\
    A member of a group of parts is no component at or below which the model has an error event, or one\n\
    of a group of events is no event.\n\
    \n\
    Instead: take a component, as root.cha.sw, or an event as events has it; leave out a part that has\n\
    no event, also where it has states or points. A requirement on a group in which a word stands for no\n\
    event would be met for nothing.\n",
    b"Q7 BadToken\n\
    \n\
    Behind except stands a text of no set of events, or behind without the name of no event.\n\
    \n\
    Instead: take a set as cuts writes it, as root.a/e+root.b/e, and an event as events has it.\n",
];
