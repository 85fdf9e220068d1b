//! What help says of each command below its first line: what it writes, its options, and an example.

/// Of `check`.
pub const CHECK: &[u8] =
    b"Tests the texts of a model, and writes the numbers of its components, facts and events. ROOT is the\n\
    classifier from which the system is made, Package::System.impl, and the files are all texts whose\n\
    packages it uses, 64 at most.\n\
    \n\
    --profile 1|2  the first, or the second, which also reads recovery, noerror, orless and more bindings\n\
    \n\
    Example, in the folder of the repository:\n\
    ./aadl_fta check Acs::Control.dual examples/attitude_control.aadl\n";

/// Of `cuts`.
pub const CUTS: &[u8] =
    b"Lists the minimal cut sets of a target, smaller ones first: the smallest sets of events that bring it\n\
    about. A line is the size of a set and its events. The last line is end, or more where a limit cut the\n\
    listing off.\n\
    \n\
    --limit N      at most N sets\n\
    --after TOKEN  only sets behind that of this text, the second word of a line\n\
    --max-order N  only sets of at most N events\n\
    --tokens       a last line more has a token for --after, which names the input\n\
    --profile 1|2  the first, or the second, which also reads recovery, noerror, orless and more bindings\n\
    \n\
    Example, in the folder of the repository:\n\
    ./aadl_fta cuts Acs::Control.dual 'root/out:torque{errors::serviceomission}' examples/attitude_control.aadl\n";

/// Of `tree`.
pub const TREE: &[u8] =
    b"Writes the static fault tree of a target as Galileo text: its top, its gates, and its basic events with\n\
    their rates. A target that holds without any event, or not even under all, has no tree.\n\
    \n\
    --format galileo|mef|dot  Galileo text, the Open-PSA Model Exchange Format, or a picture for Graphviz\n\
    --gates written|merged    gates as the formulas have them, or equal ones and those of one input merged\n\
    --unrated 1|refuse        an event without a rate has the probability 1, or is refused\n\
    --profile 1|2             the first, or the second, which also reads recovery, noerror, orless and more bindings\n\
    \n\
    Example, in the folder of the repository:\n\
    ./aadl_fta tree Acs::Control.dual 'root/out:torque{errors::serviceomission}' examples/attitude_control.aadl\n";

/// Of `fmea`.
pub const FMEA: &[u8] =
    b"Writes a table (CSV): the effects that each event reaches alone, with its rate and the round in which\n\
    the effect is reached. Effects are the states of the root that are not initial, and what leaves it.\n\
    \n\
    --all          the effects of all components\n\
    --sheet        a line for each event: its component, its rate, and what it reaches there, next to it, and at the root\n\
    --profile 1|2  the first, or the second, which also reads recovery, noerror, orless and more bindings\n\
    \n\
    Example, in the folder of the repository:\n\
    ./aadl_fta fmea Acs::Control.dual examples/attitude_control.aadl\n";

/// Of `report`.
pub const REPORT: &[u8] =
    b"Writes what reports count in all minimal cut sets of a target: how many sets there are of each size, in\n\
    how many sets each event is, and which events alone are a set.\n\
    \n\
    --reports NAMES  only these, with + between them: orders, uses, singles\n\
    --max-order N    only sets of at most N events\n\
    --profile 1|2    the first, or the second, which also reads recovery, noerror, orless and more bindings\n\
    \n\
    Example, in the folder of the repository:\n\
    ./aadl_fta report Acs::Control.dual 'root/out:torque{errors::serviceomission}' examples/attitude_control.aadl --reports orders+singles\n";

/// Of `make`.
pub const MAKE: &[u8] =
    b"Tries the program on a model that is made of N pairs of parts, 1 to 512: writes its numbers, and the\n\
    first three minimal cut sets of its failure.\n\
    \n\
    --text         the text of the model\n\
    \n\
    Example:\n\
    ./aadl_fta make 3\n";

/// Of `galileo`.
pub const GALILEO: &[u8] =
    b"Lists the minimal cut sets of a static tree in Galileo text, whichever tool wrote it, names in quotes.\n\
    The last line is end, or more where a limit cut the listing off.\n\
    \n\
    --profile 1|2           the text as tree writes it, or also as other tools write it\n\
    --paths                 the minimal path sets\n\
    --limit N               at most N sets\n\
    --max-order N           only sets of at most N events\n\
    --format mef|dot        no sets, but the tree as Open-PSA text or as a picture, as of tree\n\
    --gates written|merged  with --format: gates as the text has them, or merged, as of tree\n\
    --probability           no sets, but how probable the top is at least and at most, as of probability\n\
    --hours T               with --probability: the hours in which an event with a failure rate may occur\n\
    --events                with --probability: of each event the two numbers where it never or always occurs\n\
    \n\
    Example, in the folder of the repository:\n\
    ./aadl_fta tree Acs::Control.dual 'root/out:torque{errors::serviceomission}' examples/attitude_control.aadl > torque.dft\n\
    ./aadl_fta galileo torque.dft\n";

/// Of `paths`.
pub const PATHS: &[u8] =
    b"Lists the minimal path sets of a target, smaller ones first: the smallest sets of events whose absence\n\
    keeps it from coming about, whatever else happens. The lines are as those of cuts.\n\
    \n\
    --limit N      at most N sets\n\
    --after TOKEN  only sets behind that of this text, the second word of a line\n\
    --max-order N  only sets of at most N events\n\
    --profile 1|2  the first, or the second, which also reads recovery, noerror, orless and more bindings\n\
    \n\
    Example, in the folder of the repository:\n\
    ./aadl_fta paths Acs::Control.dual 'root/out:torque{errors::serviceomission}' examples/attitude_control.aadl\n";

/// Of `why`.
pub const WHY: &[u8] =
    b"Writes, step by step, why a target holds under a set of events. A step is its number, a fact, the events\n\
    and the earlier steps from which it follows.\n\
    \n\
    --set TOKEN    the set, as in a line of cuts: root.a/e+root.b/e, or none; with --profile 2 in any order\n\
    --profile 1|2  the first, or the second, which also reads recovery, noerror, orless and more bindings\n\
    \n\
    Example, in the folder of the repository:\n\
    ./aadl_fta why Acs::Control.dual 'root/out:torque{errors::serviceomission}' examples/attitude_control.aadl --set root.v/failure\n";

/// Of `confirm`.
pub const CONFIRM: &[u8] =
    b"Writes accepted and the number of steps where the first file has a derivation that shows that a target\n\
    holds under a set of events, whoever wrote it. The other files are those of the model.\n\
    \n\
    --set TOKEN    the set, as in a line of cuts: root.a/e+root.b/e, or none; with --profile 2 in any order\n\
    --profile 1|2  the first, or the second, which also reads recovery, noerror, orless and more bindings\n\
    \n\
    Example, in the folder of the repository:\n\
    ./aadl_fta why Acs::Control.dual 'root/out:torque{errors::serviceomission}' examples/attitude_control.aadl --set root.v/failure > why.txt\n\
    ./aadl_fta confirm Acs::Control.dual 'root/out:torque{errors::serviceomission}' why.txt examples/attitude_control.aadl --set root.v/failure\n";

/// Of `targets`.
pub const TARGETS: &[u8] =
    b"Lists the facts of a model that may be asked as targets: the effects of the root, which are its states\n\
    that are not initial and what leaves it. Behind each stands always, never, or the number of events of its\n\
    first minimal cut set, or large where it depends on too much. The last line is end.\n\
    \n\
    --all          all facts\n\
    --profile 1|2  the first, or the second, which also reads recovery, noerror, orless and more bindings\n\
    \n\
    Example, in the folder of the repository:\n\
    ./aadl_fta targets Acs::Control.dual examples/attitude_control.aadl\n";

/// Of `events`.
pub const EVENTS: &[u8] =
    b"Lists the basic events of a model, each with its kind (error, source or external), its rate, and the place\n\
    of its declaration, FILE:BYTE. The last line is end.\n\
    \n\
    --profile 1|2  the first, or the second, which also reads recovery, noerror, orless and more bindings\n\
    \n\
    Example, in the folder of the repository:\n\
    ./aadl_fta events Acs::Control.dual examples/attitude_control.aadl\n";

/// Of `review`.
pub const REVIEW: &[u8] =
    b"Lists what stands in a model without effect, and where its errors stop: flows and links that a condition\n\
    hides, types that a receiver does not declare, errors that nothing looks at, events that no effect depends\n\
    on, and what never comes about. Each line ends in the place of what it names, FILE:LINE:COLUMN. None says\n\
    that the model is wrong; each may be a slip. The last line is end.\n\
    \n\
    --profile 1|2  the first, or the second, which also reads recovery, noerror, orless and more bindings\n\
    \n\
    Example, in the folder of the repository:\n\
    ./aadl_fta review Acs::Control.dual examples/attitude_control.aadl\n";

/// Of `place`.
pub const PLACE: &[u8] =
    b"Writes where a byte of a file stands, counted from 0, as a refusal names it: FILE:LINE:COLUMN, that line\n\
    of text, and a caret below the byte. Columns are characters, and a tab is one.\n\
    \n\
    Example, in the folder of the repository:\n\
    ./aadl_fta place examples/wrong.aadl 152\n";

/// Of `manifest`.
pub const MANIFEST: &[u8] =
    b"Tests the texts of a model as check does, and writes of which program and of which files a result is: the\n\
    version of the program, the root, the numbers of components, facts and events, and the SHA-256 of each\n\
    file with its name, as sha256sum -c reads it. Keep these lines beside the tables of the model.\n\
    \n\
    --profile 1|2  the first, or the second, which also reads recovery, noerror, orless and more bindings\n\
    \n\
    Example, in the folder of the repository:\n\
    ./aadl_fta manifest Acs::Control.dual examples/attitude_control.aadl\n";

/// Of `refusals`.
pub const REFUSALS: &[u8] =
    b"Tests the texts of a model as check does, and writes what is refused of the part at which check stops: of\n\
    the members of a component, of all sets of error types that are used, of the points, the machine, the\n\
    flows or the composite states of a component, or of its connections and paths. The first line is the\n\
    refusal that check tells; each line has the file, the line and the column, the code and its name. Then\n\
    comes end, or more where the part has 1024 refusals or more. Where nothing is refused, end stands alone.\n\
    Mend them, and ask again: what stands behind them was not looked at. The exit status is 0 also where\n\
    something is refused; ask check for the verdict.\n\
    \n\
    --profile 1|2  the first, or the second, which also reads recovery, noerror, orless and more bindings\n\
    \n\
    Example, in the folder of the repository:\n\
    ./aadl_fta refusals Acs::Control.dual examples/attitude_control.aadl\n";

/// Of `probability`.
pub const PROBABILITY: &[u8] =
    b"Writes how probable a target is at least and at most, where its events are independent: two numbers\n\
    between which the probability lies, as the rates of the model have it. An event without a probability is\n\
    named in a line unrated: the lower number takes it as one that never occurs, the upper one as one that\n\
    always does. A line large stands where the two are 0 and 1, since there are more cases than are looked\n\
    at. A target that holds without any event is 1, and one that never holds is 0.\n\
    \n\
    --hours T      the hours in which an event with a failure rate may occur; it has no probability without\n\
    --events       of each event also the two numbers where it never occurs and where it always does\n\
    --max-order N  by the sets of at most N events alone; the upper number counts each time that more occur\n\
    --profile 1|2  the first, or the second, which also reads recovery, noerror, orless and more bindings\n\
    \n\
    Example, in the folder of the repository:\n\
    ./aadl_fta probability Acs::Control.dual 'root/out:torque{errors::serviceomission}' examples/attitude_control.aadl --hours 1000\n";

/// Of `require`.
pub const REQUIRE: &[u8] =
    b"Tells of each requirement of a file whether the model meets it: met, broken with the first minimal cut set\n\
    that breaks it, or vacuous where its target never holds. The exit status is 0 where all are met, and 8\n\
    where one is not. REQUIREMENTS is a file with a line for each: a name, a target and a sentence; # begins\n\
    a comment.\n\
    \n\
    R-001 root/state:lost order 2               no single event brings it about\n\
    R-002 root/state:lost order 2 except TOKEN  but for this one, as a line of cuts has it\n\
    parts software root.a root.b                a group: the events of these components and what is in them\n\
    events rain root.env/rain                   a group: these events\n\
    R-003 root/state:lost mixed software        events of the group alone do not bring it about\n\
    R-004 root/state:lost mixed software 2      two of them at most do not\n\
    R-005 root/state:lost without root.c/fail   this event has no part in it\n\
    R-006 root/state:lost possible              it may come about, and not without events\n\
    R-007 root/state:fire never                 it never does\n\
    \n\
    --tap          the same as TAP 13, which tools for tests read\n\
    --profile 1|2  the first, or the second, which also reads recovery, noerror, orless and more bindings\n\
    \n\
    Example, in the folder of the repository:\n\
    ./aadl_fta require Acs::Control.dual examples/attitude_control.requirements examples/attitude_control.aadl\n";

/// Of `compare`.
pub const COMPARE: &[u8] =
    b"Writes which minimal cut sets of a target are gone from the model in the files before the word to, and which\n\
    are new in that in the files behind it. A set is the same where its events have the same names, in whatever\n\
    order. A file that is called to is written ./to.\n\
    \n\
    gone 1 root.a/fail         a set that the older model alone has, with its order\n\
    new 2 root.a/fail+root.b/x a set that the newer model alone has\n\
    end gone 1 new 1           how many there are of each\n\
    \n\
    --max-order N  the sets of N events at most\n\
    --profile 1|2  the first, or the second, which also reads recovery, noerror, orless and more bindings\n\
    \n\
    Example, in the folder of the repository:\n\
    ./aadl_fta compare Acs::Control.dual 'root/out:torque{errors::serviceomission}' examples/attitude_control.aadl to examples/attitude_control_2.aadl\n";

/// Of `explain`.
pub const EXPLAIN: &[u8] =
    b"Writes what a refusal says, by its code, and what to write instead. The code is the first word behind the\n\
    name of the program in the line of a refusal. With the words of another call behind it, it does what the\n\
    call does but for its output, and writes why the call is refused: the refusal, its line and column or the\n\
    word that it is about, the nearest names that there are, and what to write instead.\n\
    \n\
    Example, in the folder of the repository:\n\
    ./aadl_fta explain cuts Acs::Control.dual root/out:torque examples/attitude_control.aadl\n";

/// Of `help`.
pub const HELP: &[u8] =
    b"Writes a line for each command, and the exit statuses; or the words of a command, its options, and an\n\
    example. COMMAND --help writes the same as help COMMAND, and --help or -h alone what help does.\n\
    \n\
    Example:\n\
    ./aadl_fta help cuts\n";

/// Of `version`.
pub const VERSION: &[u8] =
    b"Writes the version of the program, its profiles (the texts that it accepts, and what they mean), and\n\
    that of the format of what each command writes: it rises where a line has another form or a kind of line\n\
    is new. --version and -V write the same.\n\
    \n\
    Example:\n\
    ./aadl_fta version\n";

/// The line of the exit statuses.
pub const STATUSES: &[u8] =
    b"exit status: 0 written whole, 1 no command, 2 refused, 3 no tree of a constant target, 4 a file not read, 5 the output not written, 6 a report failed, 7 out of memory, 8 a requirement not met\n";

/// The program and its version.
pub const PROGRAM: &[u8] = b"aadl_fta 0.1.0";

/// The version of the program, its profiles, and the versions of the formats of what its commands write.
pub const VERSIONS: &[u8] = b"aadl_fta 0.1.0\n\
    profile 1\n\
    profile 2\n\
    formats: check 1 cuts 1 tree 1 mef 1 dot 2 fmea 1 sheet 1 report 1 make 1 galileo 1 paths 1 why 1 confirm 1 targets 1 events 1 review 6 place 1 manifest 2 refusals 1 probability 1 require 1 compare 1\n";
