//! The texts of help.

use bank_arguments::Topic;

/// The program's version.
pub const VERSION: &str = "0.2.0";

/// All commands.
pub const TOPICS: [Topic; 6] = [
    Topic::Answer,
    Topic::Check,
    Topic::Due,
    Topic::Mail,
    Topic::Rehearse,
    Topic::Serve,
];

/// The forms of all commands.
pub const FORMS: &str = "\
ofxbank answer SETUP RECORDS [--at DATE]
       ofxbank check SETUP [RECORDS]
       ofxbank due SETUP RECORDS
       ofxbank mail SETUP RECORDS USER SUBJECT
       ofxbank rehearse SEED
       ofxbank serve SETUP RECORDS PORT WORKERS CONNECTIONS
       ofxbank help [COMMAND]";

/// What the program is for.
pub const ABOUT: &str = "\
Keeps a bank, and answers what its customers' programs ask by Open Financial
Exchange 1.6. COMMAND --help tells more of a command.";

/// What follows all else.
pub const AFTER: &str = "\
Words:
  SETUP      the file with the bank, its users and its accounts
  RECORDS    the file in which the bank is kept, or - to keep it in memory, for
             this run alone; a file that isn't there is made. disk:PATH is a
             file of records alone, made so that a crash leaves all that was
             answered; another path is an SQLite database. A file of records
             belongs to the setup that it began with
  USER       the name of a user
  SUBJECT    1 to 64 bytes
  PORT       where serve listens, 1 to 65535
  WORKERS    how many connections are served at once, 1 to 64
  CONNECTIONS
             how many connections each worker serves before it ends, up to
             4294967295; 0 is that many
  SEED       what a rehearsal is drawn from, 0 to 18446744073709551615
  --at DATE  the moment of every frame, as a date of a file: YYYYMMDD or
             YYYYMMDDHHMMSS, perhaps with a zone, as 20240131120000[-5:EST];
             without it each frame has the moment that the clock shows

A word that begins with - is no path; a file of such a name is ./-name.

Status: 0 all done, 2 usage, 3 setup, 4 frame or body, 5 read failed or the
port can't be had, 6 write failed, 7 no memory, 8 records failed, 9 a record is
none of this bank, 10 no user or no number left.";

/// A command's name.
pub fn name_of(topic: Topic) -> &'static str {
    match topic {
        Topic::Answer => "answer",
        Topic::Check => "check",
        Topic::Due => "due",
        Topic::Mail => "mail",
        Topic::Rehearse => "rehearse",
        Topic::Serve => "serve",
    }
}

/// A command's form.
pub fn form_of(topic: Topic) -> &'static str {
    match topic {
        Topic::Answer => "ofxbank answer SETUP RECORDS [--at DATE]",
        Topic::Check => "ofxbank check SETUP [RECORDS]",
        Topic::Due => "ofxbank due SETUP RECORDS",
        Topic::Mail => "ofxbank mail SETUP RECORDS USER SUBJECT",
        Topic::Rehearse => "ofxbank rehearse SEED",
        Topic::Serve => "ofxbank serve SETUP RECORDS PORT WORKERS CONNECTIONS",
    }
}

/// What a command does, in a line.
pub fn summary_of(topic: Topic) -> &'static str {
    match topic {
        Topic::Answer => "answers request files from the standard input",
        Topic::Check => "tells what a setup and records hold, and writes nothing",
        Topic::Due => "does what is due now, once",
        Topic::Mail => "writes a letter of the bank, the standard input, to a user",
        Topic::Rehearse => "lets a small bank live through lost files and failed appends",
        Topic::Serve => "answers request files over HTTP at 127.0.0.1",
    }
}

/// What is said of a command before its form.
pub fn about_of(topic: Topic) -> &'static str {
    match topic {
        Topic::Answer => {
            "\
Answers request files from the standard input, each in its frame, on the
standard output. A frame is a line FILE and the number of its bytes, and the
bytes; for a frame that is the line DUE it does what is due at its moment."
        }
        Topic::Check => {
            "\
Reads a setup and, where they are given, opens the records, and tells what it
found. It writes nothing, and makes no file."
        }
        Topic::Due => {
            "\
Does what is due at the moment that the clock shows, and prints how many events
that were: recurring transfers make their next transfers, and transfers that
wait are posted on their day, or closed where there is no cover."
        }
        Topic::Mail => {
            "\
Writes a letter of the bank to a user, and prints the number of its entry. The
letter's body is the standard input, of 1 to 10000 bytes."
        }
        Topic::Rehearse => {
            "\
Lets a bank of four accounts and three clients live through 2000 steps that are
drawn from the seed, an hour between each and the next: files are made, lost,
repeated and reordered, appends of records fail, with their record or without
it, and the server and the clients start anew. It opens no file and reads no
input. Six lines tell what came of it: the seed, files made, events, entries,
the sum of all balances, which is always 4000.00, and stores marked lost."
        }
        Topic::Serve => {
            "\
Answers request files over HTTP, POST /ofx at 127.0.0.1, from as many
connections at once as it has workers. Before each connection a worker does
what is due."
        }
    }
}

/// The statuses of a command.
pub fn statuses_of(topic: Topic) -> &'static str {
    match topic {
        Topic::Answer => {
            "\
Status: 0 the input was read to its end and all was answered, 2 usage, 3 setup,
4 a frame has no form or is cut, 5 read failed, 6 write failed, 7 no memory,
8 records failed, 9 a record is none of this bank."
        }
        Topic::Check => {
            "\
Status: that of a run over them: 0, 2 usage, 3 setup, 5 the setup can't be
read, 6 write failed, 7 no memory, 8 the records can't be opened or read, or
belong to another setup, 9 a record is none of this bank."
        }
        Topic::Due => {
            "\
Status: 0 done, 2 usage, 3 setup, 5 read failed, 6 write failed, 7 no memory,
8 records failed, 9 a record is none of this bank."
        }
        Topic::Mail => {
            "\
Status: 0 done, 2 usage, 3 setup, 4 the body, 5 read failed, 6 write failed,
7 no memory, 8 records failed, 9 a record is none of this bank, 10 no user or
no number left."
        }
        Topic::Rehearse => {
            "\
Status: 0 done, 2 usage, 5 the system has no random bytes, 6 write failed,
7 no memory."
        }
        Topic::Serve => {
            "\
Status: 0 all connections were served, 2 usage, 3 setup, 5 the setup can't be
read or the port can't be had, 7 no memory, 8 records failed, 9 a record is
none of this bank."
        }
    }
}

/// What a word after a command is, by its name.
pub fn meaning_of(name: &str) -> &'static str {
    match name {
        "SETUP" => "the file with the bank, its users and its accounts",
        "RECORDS" => "the file of records: an SQLite database, or disk:PATH; - keeps nothing",
        "USER" => "the name of a user, as the setup has it",
        "SUBJECT" => "1 to 64 bytes",
        "PORT" => "where it listens, 1 to 65535",
        "WORKERS" => "how many connections are served at once, 1 to 64",
        "CONNECTIONS" => "how many each worker serves, up to 4294967295; 0 is that many",
        "SEED" => "0 to 18446744073709551615",
        _ => "",
    }
}

/// What `--at` takes.
pub const AT: &str = "the moment of every frame, as a date of a file; without it the clock's";
