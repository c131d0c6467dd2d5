//! What the program says of itself.

/// The program and its version.
pub const VERSION: &str = "tldreg 1.0.0";

/// What the program does, by command and option.
pub const HELP: &str = "tldreg: the registry of a top-level domain

tldreg run POLICY                                    answer the script that standard input is
tldreg serve POLICY DB PORT [OPERATOR_PORT TOKEN_FILE]
                                                     serve registrars (EPP) and the public (RDAP) on 127.0.0.1,
                                                     and the operator (HTTP) who has the token of the file
tldreg zone POLICY DB MOMENT                         print the zone
tldreg deposit POLICY DB MOMENT REGISTRAR CENTS      enter what a registrar has paid
tldreg order POLICY DB MOMENT JSON                   carry out an order of the operator
tldreg migrate POLICY OLD NEW                        take over a database of the schema before this one
tldreg --help                                        print this
tldreg --version                                     print the version

POLICY is a policy file, DB a database file or :memory:, MOMENT as 2029-01-02T00:00:00Z.

Options of serve, zone, deposit and order:
  --within DAYS       refuse a moment that is further than this from the registry's clock

Options of serve:
  --first SECONDS     how long the first byte of a connection is waited for (10)
  --head SECONDS      how long the head of a request may take (10)
  --frame SECONDS     how long a frame may take, from its first byte on (30)
  --login SECONDS     how long a connection may be without a login (30)
  --pause SECONDS     how long the next frame may be waited for, and a reply may take (60)
  --still SECONDS     the same while another connection waits (10)
  --session SECONDS   how long a session may last while another connection waits (60)
  --quiet             print no log

Status 0: all was done. 1: it wasn't, as an answer or a line of standard error says. 2: a wrong command line.";
