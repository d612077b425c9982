//! What the help of the desk's commands says.

// These lines, with those of the faults of the file of records at the `;`.
macro_rules! with_records_faults {
    ($($before:literal),+; $($after:literal),+) => {
        concat!(
            $($before,)+
            "  canary: storage          cannot open, read or write FILE, or it is not a database\n",
            "  canary: in-use           another program has FILE open\n",
            "  canary: other-schema     the tables of FILE are not a desk's\n",
            "  canary: broken-row       FILE has a row that no desk writes\n",
            $($after),+
        )
    };
}

pub(crate) const DESK_ABOUT: &str =
    "Judges canary releases: a desk settles each numbered request once, and a client asks it";

pub(crate) const DESK_HELP: &str = concat!(
    "Exit status: 0 for success, 1 for a fault or for findings of check or argo, 2 for an\n",
    "invalid command line. do, get, watch, send, due and agent ask a desk, and have further\n",
    "statuses. The help of each command lists its faults and has an example."
);

// ---- options that several commands have

pub(crate) const DB_HELP: &str = "The file with the desk's records, which must exist";

pub(crate) const DB_OR_MEMORY_HELP: &str =
    "The file with the desk's records, made if it does not exist [default: in memory]";

pub(crate) const DB_OR_MADE_HELP: &str =
    "The file with the desk's records, made if it does not exist";

pub(crate) const CACHE_HELP: &str = concat!(
    "Bytes of memory for what the desk keeps of FILE, 1 to 68719476736 ",
    "[default: 67108864]"
);

pub(crate) const SERVICE_HELP: &str = "The name of the service";

pub(crate) const WATCH_OPTION_HELP: &str =
    "Seconds from one time to the next, 1 to 86400 [default: only once]";

// ---- pipe

pub(crate) const PIPE_ABOUT: &str = "Answers HTTP requests from standard input on standard output";

pub(crate) const PIPE_USAGE: &str = concat!(
    "canary pipe [OPTIONS] --at <SECONDS> --step <SECONDS>\n\n",
    "SECONDS: a whole number from 0 to 253370764799"
);

pub(crate) const AT_HELP: &str =
    "The moment of the first request, in seconds since 1970-01-01T00:00:00Z (UTC)";

pub(crate) const STEP_HELP: &str = "The seconds from each request to the next";

pub(crate) const PIPE_HELP: &str = with_records_faults!(
    "With --db each settled request is on disk before its reply goes out. Without --db the\n",
    "records are in memory, and end with the program.\n\n",
    "Exit status: 0 if pipe answered the input to its end or a reply closed the stream, 2 for an\n",
    "invalid command line, and 1 for a fault, which a line on standard error names:\n",
    "  canary: truncated        the input ended in the middle of a message\n",
    "  canary: turns-spent      the input went on after 1,000,000,000 reads\n",
    "  canary: read             reading the input failed\n",
    "  canary: write            the output failed or was closed\n",
    "  canary: memory           out of memory before the first read\n";
    "\nExample: canary pipe --at 1767225600 --step 1 < requests"
);

// ---- serve

pub(crate) const SERVE_ABOUT: &str = "Serves the desk over HTTP on ADDRESS";

pub(crate) const LISTEN_HELP: &str =
    "The IP address and port to listen on; for port 0 the system chooses a port";

pub(crate) const CONNECTIONS_HELP: &str =
    "Connections after which serve ends, 1 to 1000000 [default: it does not end]";

pub(crate) const READ_TIMEOUT_HELP: &str =
    "Most seconds from a message's first byte to its last, 1 to 86400 [default: 10]";

pub(crate) const IDLE_TIMEOUT_HELP: &str =
    "Most seconds that a client may be idle or leave replies unread, 1 to 86400 [default: 60]";

pub(crate) const MAX_CLIENTS_HELP: &str = concat!(
    "Most clients at a time, 1 to 65536; a further one takes the place of an idle one, or waits ",
    "[default: 1000]"
);

pub(crate) const MAX_UNSENT_HELP: &str =
    "Unsent reply bytes at which a client's messages wait, 1 to 1073741824 [default: 65536]";

pub(crate) const MAX_UNSENT_TOTAL_HELP: &str = concat!(
    "Unsent reply bytes of all clients at which queries wait, 1 to 68719476736 ",
    "[default: 67108864]"
);

pub(crate) const SERVE_HELP: &str = with_records_faults!(
    "serve prints 'listening IP:PORT' on standard output once clients can connect. With --db\n",
    "each settled request is on disk before its reply goes out. Without --db the records are in\n",
    "memory and end with the program, and standard error says so. serve disconnects a client\n",
    "that exceeds a timeout. If a connection ends with a fault, a line on standard error names\n",
    "the fault and the IP address of the client, and serve goes on with the other clients:\n",
    "  canary: truncated IP     a message did not come to its end, or not in time\n",
    "  canary: read IP          reading from the client failed\n",
    "  canary: write IP         writing to the client failed, or it left replies unread too long\n",
    "  canary: memory IP        out of memory for the client\n\n",
    "Exit status: 0 after as many connections as --connections says, 2 for an invalid command\n",
    "line, and 1 for a fault, which a line on standard error names:\n",
    "  canary: listen           ADDRESS is not IP:PORT, or serve cannot listen on it\n",
    "  canary: accept           waiting for clients failed\n",
    "  canary: write            the line on standard output could not be written\n",
    "  canary: memory           out of memory before the first connection\n";
    "\nExample: canary serve --listen 127.0.0.1:8080 --db desk.db"
);

// ---- import

pub(crate) const IMPORT_ABOUT: &str = "Records the measurements of a CSV file";

pub(crate) const CSV_HELP: &str = "The file with the measurements; - is standard input";

pub(crate) const IMPORT_HELP: &str = with_records_faults!(
    "The first record of CSV is the header\n",
    "  caller,number,service,run,metric,ordinal,taken,result,failure\n",
    "and each further record is a row: a request of this caller, under this number, to record\n",
    "one measurement. For each row import prints one line: the number of the row, counted from\n",
    "1, the HTTP status of the reply, and its body. Importing a row again records no\n",
    "measurement twice: the row gets the reply that it had, unless that was 409 ahead or 503.\n\n",
    "If FILE does not exist, import makes it, with an empty desk, and says so if standard\n",
    "error is a terminal.\n\n",
    "Exit status: 0 if each row has its line, 2 for an invalid command line, and 1 for a fault,\n",
    "which a line on standard error names; what import recorded before the fault stays:\n",
    "  canary: file             CSV cannot be opened\n",
    "  canary: header           the first record is not the header\n",
    "  canary: rows-spent       CSV has more than 1,000,000 rows, or 1,000,000,000 bytes or more\n",
    "  canary: read             reading CSV failed\n",
    "  canary: write            the output failed or was closed\n",
    "  canary: memory           out of memory\n";
    "\nExamples:\n",
    "  canary import --db desk.db measurements.csv\n",
    "  canary import --db desk.db - < measurements.csv"
);

// ---- history

pub(crate) const HISTORY_ABOUT: &str = "Prints what happened to a service";

pub(crate) const HISTORY_HELP: &str = with_records_faults!(
    "history prints one line for each event, the oldest first: its moment (UTC) and what\n",
    "happened. It prints what FILE holds: an event that time alone brings is recorded with the\n",
    "next request on the service.\n\n",
    "If FILE does not exist, history makes it, with an empty desk, and says so if standard\n",
    "error is a terminal.\n\n",
    "Exit status: 0 if history printed all events, 2 for an invalid command line, and 1 for a\n",
    "fault, which a line on standard error names:\n",
    "  canary: bad-name         SERVICE is not a valid name\n",
    "  canary: unknown-service  there is no such service\n",
    "  canary: write            the output failed or was closed\n",
    "  canary: memory           out of memory\n";
    "\nExample: canary history --db desk.db web"
);

// ---- export

pub(crate) const EXPORT_ABOUT: &str = "Prints the measurements of a service as CSV";

pub(crate) const CALLER_HELP: &str = "The caller that each row names";

pub(crate) const EXPORT_HELP: &str = with_records_faults!(
    "export prints a file that import reads: the header, and a row for each measurement, in\n",
    "the order in which the desk recorded them. The caller of each row is NAME, and the\n",
    "numbers are 1, 2, 3 and so on.\n\n",
    "If FILE does not exist, export makes it, with an empty desk, and says so if standard\n",
    "error is a terminal.\n\n",
    "Exit status: 0 if export printed all measurements, 2 for an invalid command line, and 1 for\n",
    "a fault, which a line on standard error names:\n",
    "  canary: bad-name         SERVICE or NAME is not a valid name\n",
    "  canary: unknown-service  there is no such service\n",
    "  canary: too-many         it has more than 1,000,000,000 measurements\n",
    "  canary: write            the output failed or was closed\n",
    "  canary: memory           out of memory\n";
    "\nExample: canary export --db desk.db --caller copy web > measurements.csv"
);

// ---- status

pub(crate) const STATUS_ABOUT: &str = "Prints a table of the services and their open runs";

pub(crate) const JSON_HELP: &str = "Print a line of JSON for each service, in place of the table";

pub(crate) const PROMETHEUS_HELP: &str =
    "Print the text format of Prometheus, in place of the table";

pub(crate) const STATUS_HELP: &str = concat!(
    "With --json, each line is the JSON value of one service, with its keys in ascending order.\n",
    "With --prometheus, status prints what node_exporter's textfile collector reads: write it to\n",
    "a file beside the one that the collector reads, then rename it. --json and --prometheus\n",
    "together are an invalid command line.\n\n",
    "With --watch, status goes on until it is stopped or has a fault. While a desk has FILE\n",
    "open, status reads a copy, which it makes in a private folder and removes again.\n\n",
    "Exit status: 0 if status printed all services, 2 for an invalid command line, and 1 for a\n",
    "fault, which a line on standard error names:\n",
    "  canary: write            the output failed or was closed\n",
    "  canary: memory           out of memory\n",
    "  canary: file             FILE does not exist, or no copy of it can be made\n",
    "  canary: storage          cannot open, read or write FILE, or it is not a database\n",
    "  canary: in-use           FILE changes too fast for a copy\n",
    "  canary: other-schema     the tables of FILE are not a desk's\n",
    "  canary: broken-row       FILE has a row that no desk writes\n",
    "\nExamples:\n",
    "  canary status --db desk.db --watch 5\n",
    "  canary status --db desk.db --json\n",
    "  canary status --db desk.db --prometheus > desk.new && mv desk.new desk.prom"
);

// ---- page

pub(crate) const PAGE_ABOUT: &str = "Draws the services and their runs as a page of HTML";

pub(crate) const OUT_HELP: &str = "The file to write the page to; - is standard output";

pub(crate) const JSON_FOLDER_HELP: &str =
    "Also write one JSON file for each service, FOLDER/SERVICE.json";

pub(crate) const PAGE_HELP: &str = concat!(
    "The page is one file, which has no script and fetches nothing. page writes it beside OUT\n",
    "and renames it to OUT, so OUT is always a whole page. With --watch, page goes on until it\n",
    "is stopped or has a fault, and a browser loads the page anew as often. While a desk has\n",
    "FILE open, page reads a copy, which it makes in a private folder and removes again.\n\n",
    "With --json, page also writes a JSON file for each service to FOLDER, which must exist.\n\n",
    "Exit status: 0 if page wrote the page, 2 for an invalid command line, and 1 for a fault,\n",
    "which a line on standard error names:\n",
    "  canary: write         the page or a JSON file cannot be written to its end\n",
    "  canary: memory        out of memory\n",
    "  canary: file          FILE does not exist, or no copy of it can be made, or OUT or a\n",
    "                        JSON file cannot be made\n",
    "  canary: storage       cannot open, read or write FILE, or it is not a database\n",
    "  canary: in-use        FILE changes too fast for a copy\n",
    "  canary: other-schema  the tables of FILE are not a desk's\n",
    "  canary: broken-row    FILE has a row that no desk writes\n",
    "\nExamples:\n",
    "  canary page --db desk.db desk.html\n",
    "  canary page --db desk.db --watch 5 /var/www/html/desk.html\n",
    "  canary page --db desk.db --json /var/www/html/services /var/www/html/desk.html"
);

// ---- backup

pub(crate) const BACKUP_ABOUT: &str = "Copies the records of a desk to another file";

pub(crate) const EVERY_HELP: &str =
    "Seconds from one copy to the next, 1 to 31536000 [default: only one copy]";

pub(crate) const KEEP_HELP: &str = "Copies to keep with --every, 1 to 10000 [default: all]";

pub(crate) const COPY_HELP: &str =
    "The file to write the copy to, which must not exist; with --every, a folder, which must";

pub(crate) const BACKUP_HELP: &str = concat!(
    "The copy is COPY and its log COPY-wal, which belong together; neither may exist before. A\n",
    "desk may serve FILE meanwhile. backup opens the copy, and looks that its tables are a\n",
    "desk's. It does not judge their rows.\n\n",
    "With --every, COPY is a folder, which must exist. backup makes a copy there each SECONDS,\n",
    "until it is stopped or has a fault. A copy is named desk-YYYYMMDDTHHMMSSZ.db, by its moment\n",
    "(UTC), and has its log beside it. With --keep, once a new copy is whole, backup removes the\n",
    "oldest of its copies in that folder, so that N are left. --keep without --every is an\n",
    "invalid command line.\n\n",
    "Exit status: 0 if the copy is whole, 2 for an invalid command line, and 1 for a fault,\n",
    "which a line on standard error names:\n",
    "  canary: file          FILE does not exist, or a file cannot be read or written, or\n",
    "                        COPY or COPY-wal exists, or with --every COPY is not a folder\n",
    "  canary: memory        out of memory\n",
    "  canary: storage       FILE cannot be reached, or the copy cannot be opened\n",
    "  canary: other-schema  FILE is not a desk's\n",
    "  canary: in-use        FILE changes too fast for a copy\n",
    "\nExamples:\n",
    "  canary backup --db desk.db desk-copy.db\n",
    "  canary backup --db desk.db --every 3600 --keep 24 /var/backups/desk"
);

// ---- migrate

pub(crate) const MIGRATE_ABOUT: &str = "Makes a file of the first version one of this version";

pub(crate) const DRY_RUN_HELP: &str = "Judge FILE and print what migrate would do; change nothing";

pub(crate) const MIGRATE_HELP: &str = concat!(
    "The first version of the desk had templates without revisions, in tables of another form.\n",
    "migrate judges all rows of such a file, and makes its tables those of this version in one\n",
    "transaction. Each template becomes its revision 1, to which the services and the runs that\n",
    "name it are bound; all else stays. migrate prints 'migrated', or 'current' if FILE is of\n",
    "this version already. With --dry-run it prints 'would-migrate' or 'current': it migrates a\n",
    "copy, which it makes in a private folder and removes again. No desk may have FILE open.\n\n",
    "Make a backup first: stop the desk, and copy FILE and its log FILE-wal.\n\n",
    "Exit status: 0 if migrate printed its word, 2 for an invalid command line, and 1 for a\n",
    "fault, which a line on standard error names. FILE is as it was then; but after write, and\n",
    "after storage if FILE failed as it was closed, it may be of this version:\n",
    "  canary: file          FILE does not exist, or no copy of it can be made\n",
    "  canary: storage       cannot open, read or write FILE, or it is not a database\n",
    "  canary: in-use        another program has FILE open, or it changes too fast for a copy\n",
    "  canary: other-schema  the tables of FILE are neither the first version's nor this one's\n",
    "  canary: broken-row    FILE has a row that no desk writes\n",
    "  canary: memory        out of memory\n",
    "  canary: write         the output failed or was closed\n",
    "\nExamples:\n",
    "  canary migrate --db desk.db --dry-run\n",
    "  canary migrate --db desk.db"
);

// ---- succeed

pub(crate) const SUCCEED_ABOUT: &str = "Makes a new desk of what a desk has come to";

pub(crate) const OLD_HELP: &str = "The file with the old desk's records, which must exist";

pub(crate) const NEW_HELP: &str = "The file to make the new desk in, which must not exist";

pub(crate) const SUCCEED_HELP: &str = concat!(
    "NEW gets each template of OLD at its newest revision, as its revision 1, and each service\n",
    "at its stable version, done. It gets nothing else: no history, no measurement and no\n",
    "settled request, so each caller begins anew with number 1. The requests that make NEW are\n",
    "those of the caller 'succeed'. OLD stays as it is, for history, export and page. Stop its\n",
    "desk first. succeed prints 'succeeded'.\n\n",
    "Exit status: 0 if succeed printed its word, 2 for an invalid command line, and 1 for a\n",
    "fault, which a line on standard error names:\n",
    "  canary: in-progress   a release of OLD is in progress\n",
    "  canary: in-use        another program has OLD open\n",
    "  canary: file          OLD does not exist, or NEW exists or cannot be made\n",
    "  canary: storage       cannot open, read or write OLD or NEW, or OLD is not a database\n",
    "  canary: other-schema  the tables of OLD are not a desk's\n",
    "  canary: broken-row    OLD has a row that no desk writes\n",
    "  canary: memory        out of memory\n",
    "  canary: write         the output failed or was closed\n",
    "\nExample: canary succeed --db desk.db desk-of-2027.db"
);

// ---- check

pub(crate) const CHECK_ABOUT: &str =
    "Reports what a desk would refuse in a template or a Rollout, without a desk";

pub(crate) const FILE_HELP: &str =
    "AnalysisTemplates or Rollouts in JSON or YAML, as kubectl reads and prints them";

pub(crate) const REQUEST_HELP: &str = "A request's body, as a desk gets it, in place of FILE";

pub(crate) const STRICT_HELP: &str = "Count what check warns of as findings";

pub(crate) const CHECK_HELP: &str = concat!(
    "check prints 'ok', or what a desk would refuse or could not read: one line for each\n",
    "finding, with its place and what a desk expects there. A line that begins with four spaces\n",
    "belongs to the finding before it, and says what to write instead. After 100 findings check\n",
    "says how many more there are. A manifest without a kind is what its spec has: metrics are a\n",
    "template's, a strategy is a Rollout's. check needs no desk: it does not look for the\n",
    "templates that a Rollout names, or for what else a desk has.\n\n",
    "What a desk takes, though it may not be what you mean, is a line 'canary: warning: ..' on\n",
    "standard error, with what to write instead: steps that bring a version to 100 % though\n",
    "nobody measures, two weights in a row, a metric without a condition, and members that mean\n",
    "something in Argo and nothing here. With --strict these are findings.\n\n",
    "Exit status: 0 if check printed 'ok', 2 for an invalid command line, and 1 if check printed\n",
    "anything else or for a fault, which a line on standard error names:\n",
    "  canary: file    FILE cannot be read, or is longer than 16 MiB\n",
    "  canary: write   the output failed or was closed\n",
    "  canary: memory  out of memory\n\n",
    "Examples:\n",
    "  canary check errors.json\n",
    "  canary check --strict web.json\n",
    "  canary check --request body.json\n",
    "  kubectl get analysistemplate errors -o json | canary check /dev/stdin"
);

// ---- argo

pub(crate) const ARGO_ABOUT: &str = concat!(
    "Translates manifests of Argo Rollouts into what a desk takes, ",
    "or says what is not translated"
);

pub(crate) const ARGO_OUT_HELP: &str = "The folder to write what a desk takes to";

pub(crate) const ARGO_JSON_HELP: &str = "Print one value in JSON";

pub(crate) const ARGO_FILES_HELP: &str =
    "Files of Rollouts and AnalysisTemplates in YAML or JSON; - is standard input";

pub(crate) const ARGO_HELP: &str = concat!(
    "argo asks no desk. Each FILE has Rollouts and AnalysisTemplates, in YAML or JSON, and the\n",
    "FILE - is standard input. What argo does not translate is a finding: argo prints it with\n",
    "its file, line and column, and says what to write instead. So is what a desk would refuse\n",
    "of the translation, at once or as a release starts. What check would warn of is a line\n",
    "'canary: warning: ..' on standard error.\n\n",
    "With --out, argo writes to the folder FOLDER a file NAME.template.json for each template, a\n",
    "file NAME.rollout.json for each Rollout, and plan.json. It replaces files of these names,\n",
    "but never a FILE. It writes nothing if it finds anything. With --json, argo prints one\n",
    "value in JSON.\n\n",
    "Exit status: 0 if argo translated all, 2 for an invalid command line, and 1 for findings or\n",
    "for a fault, which a line on standard error names:\n",
    "  canary: file    a FILE cannot be read, or a file cannot be written to FOLDER\n",
    "  canary: write   the output failed or was closed\n",
    "  canary: memory  out of memory\n\n",
    "Example: canary argo --out desk success-rate.yaml guestbook.yaml"
);
