//! What the help of the commands says that ask a desk.

// ---- options that several commands have

pub(crate) const DESK_OPTION_HELP: &str = concat!(
    "Where the desk listens; a name is looked up once, as the call begins; ",
    "CANARY_DESK counts in its place [default: 127.0.0.1:8080]"
);

pub(crate) const TRIES_HELP: &str = "Most times that a message is sent, 1 to 1000 [default: 10]";

pub(crate) const TIMEOUT_HELP: &str = "Most seconds for each reply, 1 to 86400 [default: 5]";

// ---- do

pub(crate) const DO_ABOUT: &str = "Asks a command of a desk, once";

pub(crate) const DO_USAGE: &str = concat!(
    "canary do [OPTIONS] <COMMAND> [WORD]..\n",
    "       canary do [OPTIONS] --argo template <FILE>..\n",
    "       canary do [OPTIONS] --argo service <FILE>.. <VERSION>"
);

pub(crate) const AS_HELP: &str = "The caller's name; CANARY_AS counts in its place";

pub(crate) const JOURNAL_HELP: &str =
    "The caller's journal, made if it does not exist; CANARY_JOURNAL counts in its place";

pub(crate) const ONCE_HELP: &str =
    "A key of this command: a second call with the key gets the reply of the first";

pub(crate) const INSTEAD_HELP: &str = "Ask the command in the place of the one that is pending";

pub(crate) const ARGO_OPTION_HELP: &str = concat!(
    "Translates the FILEs of template or service from Argo's manifests first: ",
    "each template, or each service, is a command"
);

pub(crate) const FAILURE_HELP: &str = "Why a measurement failed, in place of its RESULT";

pub(crate) const COMMAND_HELP: &str = "The command, one of those below";

pub(crate) const FIRST_HELP: &str = "SERVICE, or FILE of template and service";

pub(crate) const SECOND_HELP: &str =
    "VERSION of start and service, RUN of report; with --argo FILE or VERSION";

pub(crate) const THIRD_HELP: &str = "METRIC of report; with --argo FILE or VERSION";

pub(crate) const FOURTH_HELP: &str = "RESULT of report; with --argo FILE or VERSION";

pub(crate) const MORE_HELP: &str = "With --argo further FILEs, and VERSION of service at the end";

pub(crate) const DO_HELP: &str = concat!(
    "Each COMMAND has these words:\n",
    "  promote SERVICE\n",
    "  promote-full SERVICE\n",
    "  abort SERVICE\n",
    "  retry SERVICE\n",
    "  tick SERVICE\n",
    "  start SERVICE VERSION\n",
    "  template FILE\n",
    "  service FILE VERSION\n",
    "  report SERVICE RUN METRIC RESULT\n",
    "  report SERVICE RUN METRIC --failure TEXT\n",
    "  --argo template FILE..\n",
    "  --argo service FILE.. VERSION\n\n",
    "FILE is a manifest. A report gets the ordinal that comes next in its run, and the present\n",
    "moment. A RESULT that begins with - stands after --, as in the last example.\n\n",
    "With --argo, the FILEs are Argo's manifests, as argo takes them. Each of their templates,\n",
    "or each of their services, is a command of its own. With --once KEY, the key of each is\n",
    "KEY, a space and its name.\n\n",
    "do needs the caller's name and journal, by the options or by the variables. An option\n",
    "counts before its variable.\n\n",
    "The command is in the journal before do sends it, and its reply before do prints it. While\n",
    "no answer comes, do sends the same bytes again. It settles what is pending in the journal\n",
    "before it goes on. It prints the body of the reply, and on a terminal a plain line in its\n",
    "place. A line on standard error says what went wrong.\n\n",
    "Exit status:\n",
    "  0  done: the desk did it, or did it before under this key\n",
    "  1  refused: the desk decided that it is not done\n",
    "  2  an invalid command line\n",
    "  3  pending: no answer came. The command may have acted or not; the same call finds out\n",
    "  4  contradiction: the desk and the journal contradict each other. A person has to look\n",
    "  5  the journal, FILE, memory or the output failed here\n",
    "  6  too late: the earlier command was settled, and the one in its place did nothing\n\n",
    "Examples:\n",
    "  export CANARY_DESK=127.0.0.1:8080 CANARY_AS=ops CANARY_JOURNAL=ops.journal\n",
    "  canary do promote web\n",
    "  canary do --once deploy-77 start web v2\n",
    "  canary do report web 1 errors -- -5"
);

// ---- get

pub(crate) const GET_ABOUT: &str = "Shows a service, what happened to it, or one of its runs";

pub(crate) const PART_HELP: &str =
    "history, or the number of a run [default: the service as it stands]";

pub(crate) const GET_HELP: &str = concat!(
    "get prints the body of the reply, and on a terminal a plain line in its place. A line on\n",
    "standard error says what went wrong.\n\n",
    "Exit status:\n",
    "  0  found\n",
    "  1  refused: there is no such thing\n",
    "  2  an invalid command line\n",
    "  3  no desk answers\n",
    "  5  memory or the output failed here\n\n",
    "Examples:\n",
    "  canary get web\n",
    "  canary get web history\n",
    "  canary get --desk 127.0.0.1:8080 web 1"
);

// ---- watch

pub(crate) const WATCH_ABOUT: &str = "Shows a line each time that a service stands otherwise";

pub(crate) const UNTIL_HELP: &str =
    "How the service stands as watch ends: words of the list below [default: Healthy,Degraded]";

pub(crate) const WATCH_JSON_HELP: &str = "Print each line as a JSON value";

pub(crate) const FOREVER_HELP: &str =
    "Never end: follow the service through releases, and while no desk answers";

pub(crate) const WATCH_TIMEOUT_HELP: &str =
    "Most seconds to wait for that, 1 to 86400 [default: no end]";

pub(crate) const WATCH_HELP: &str = concat!(
    "A line ends with why the service stands so. Words of --until, separated by commas:\n",
    "  Healthy, Degraded, Paused, Progressing   the service has this status\n",
    "  Held      an analysis is Inconclusive: somebody has to decide\n",
    "  Waiting   at a pause without an end: it waits for a promotion\n",
    "A pause of some seconds is neither Held nor Waiting. A ",
    "line on standard error says what went\n",
    "wrong.\n\n",
    "Exit status:\n",
    "  0  the service stands so, and it is neither Degraded nor Held\n",
    "  1  it is Degraded, or there is no such service\n",
    "  2  an invalid command line\n",
    "  3  it did not come to that in time, or no desk answers\n",
    "  4  the desk's reply cannot be read\n",
    "  5  memory or the output failed here\n",
    "  7  it is Held\n\n",
    "Examples:\n",
    "  canary watch web\n",
    "  canary watch --until Waiting,Held,Healthy,Degraded --timeout 600 web\n",
    "  canary watch --forever --json web"
);

// ---- send

pub(crate) const SEND_ABOUT: &str = "Sends the measurements of a CSV file to a desk, each once";

pub(crate) const SEND_CSV_HELP: &str =
    "The file with the measurements, as import takes it; - is standard input";

pub(crate) const SEND_HELP: &str = concat!(
    "Each record behind the header is a row: a request of its caller, under its number, to\n",
    "record one measurement. send sends each row until it is answered, and prints one line for\n",
    "it: the number of the row, counted from 1, the HTTP status of the reply, and its body.\n",
    "Sending CSV again records no measurement twice. A line on standard error says what went\n",
    "wrong.\n\n",
    "The last line on standard error counts the rows that are recorded, that repeat a recorded\n",
    "measurement, and that are refused.\n\n",
    "Exit status:\n",
    "  0  each row has its line, and none is refused\n",
    "  2  an invalid command line\n",
    "  3  pending: no answer came. The row may be recorded or not; the same call finds out\n",
    "  4  contradiction: the desk and CSV contradict each other. A person has to look\n",
    "  5  CSV, memory or the output failed here\n",
    "  8  each row has its line, and one is refused\n\n",
    "Example: canary send measurements.csv"
);

// ---- due

pub(crate) const DUE_ABOUT: &str = "Shows which measurements of services are due, or late";

pub(crate) const WAIT_HELP: &str = "Wait until a measurement is due";

pub(crate) const LATE_HELP: &str =
    "Show the measurements that have been due for more than so many seconds, 1 to 31536000";

pub(crate) const SERVICES_HELP: &str = "The names of the services";

pub(crate) const DUE_TIMEOUT_HELP: &str = concat!(
    "Most seconds for each reply, with --wait for the whole call, 1 to 86400 ",
    "[default: 5, with --wait no end]"
);

pub(crate) const DUE_HELP: &str = concat!(
    "due prints a line 'RUN METRIC ORDINAL' for each ",
    "measurement that is due, in the order of the\n",
    "SERVICEs. With more than one SERVICE, or with --late, the ",
    "line begins with the service; with\n",
    "--late it ends with the moment since which the measurement is due. A line on standard error\n",
    "says what went wrong.\n\n",
    "Exit status:\n",
    "  0  a measurement is due; with --late, one is late\n",
    "  1  none is, or there is no such service\n",
    "  2  an invalid command line\n",
    "  3  none was due in time, or no desk answers\n",
    "  4  the desk's reply cannot be read\n",
    "  5  memory or the output failed here\n\n",
    "Examples:\n",
    "  canary due web\n",
    "  canary due --wait --timeout 600 web\n",
    "  canary due --late 60 web shop"
);

// ---- agent

pub(crate) const AGENT_ABOUT: &str =
    "Measures what a desk waits for, as Argo's manifests say it, and reports it";

pub(crate) const JOURNALS_HELP: &str = concat!(
    "The folder of the journals, made if it does not exist; ",
    "CANARY_JOURNALS counts in its place"
);

pub(crate) const AGENT_AS_HELP: &str =
    "What the callers' names begin with: PREFIX-SERVICE [default: agent]";

pub(crate) const AGENT_ONCE_HELP: &str = "Look at each service once, and end";

pub(crate) const AGENT_DRY_RUN_HELP: &str =
    "Look at each service once, and print what agent would ask and report; report nothing";

pub(crate) const VALUES_HELP: &str =
    "A file or FIFO with lines SERVICE METRIC VALUE of another program; - is standard input";

pub(crate) const ABORT_LATE_HELP: &str = concat!(
    "Abort a service if nobody takes a measurement that is late by more than so many seconds, ",
    "1 to 31536000 ",
    "[default: never]"
);

pub(crate) const HEALTH_HELP: &str =
    "A file that agent touches as long as it works, made if it does not exist";

pub(crate) const AGENT_TIMEOUT_HELP: &str =
    "Most seconds for each reply of the desk, 1 to 86400 [default: 5]";

pub(crate) const AGENT_FILES_HELP: &str =
    "Files of Rollouts and AnalysisTemplates in YAML or JSON, or folders of such files";

pub(crate) const AGENT_HELP: &str = concat!(
    "agent takes the manifests that argo takes, and looks after the services of their Rollouts.\n",
    "If a measurement is due, agent asks the provider of its metric, and reports what came: a\n",
    "value, or why there is none. It asks the providers prometheus and web over http. It goes on\n",
    "until it is stopped. In a folder it reads the files .yaml, .yml and .json. If a file\n",
    "changes, agent reads all of them again.\n\n",
    "The caller of a service is PREFIX-SERVICE, and its journal the file of this name in FOLDER.\n",
    "A report is in the journal before agent sends it. agent settles what is pending in the\n",
    "journal before it goes on. Unless --dry-run is given, agent needs FOLDER, by the option or\n",
    "by the variable.\n\n",
    "agent prints a JSON value for each measurement that it reported, and on a terminal a plain\n",
    "line in its place. A line on standard error says what went wrong, which metrics agent does\n",
    "not measure, and which measurements are late by more than their interval.\n\n",
    "With --values, another program gives what agent does not ask a provider for. METRIC is the\n",
    "metric's name in the manifest, and VALUE is a number, NaN, +Inf, -Inf, null, or a list of\n",
    "these: [0.1,0.2].\n\n",
    "With --abort-late, agent aborts a service once it has seen for a minute that nobody takes a\n",
    "measurement that is so late. After a pause it first measures what is due.\n\n",
    "Exit status; without --once and --dry-run agent ends by 2 or 5, by a signal, or by 3 as it\n",
    "starts, if the desk's name has no address:\n",
    "  0  agent looked at each service, and reported what was due\n",
    "  1  the desk does not have a service, or agent does not measure what is due\n",
    "  2  an invalid command line, a manifest that argo does not translate, or no Rollout\n",
    "  3  pending: no desk answers, or a report has no answer; the next call goes on\n",
    "  4  contradiction: the desk and a journal contradict each other. A person has to look\n",
    "  5  a journal, the file of --values, memory or the output failed here, or this machine\n",
    "     could not ask a provider\n\n",
    "Examples:\n",
    "  canary agent --dry-run manifests\n",
    "  canary agent --journals journals --abort-late 600 manifests\n",
    "  probe | canary agent --journals journals --values - success-rate.yaml guestbook.yaml"
);
