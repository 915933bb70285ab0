//! Recorded files, which have no place: the first thread that may make a turn makes it.

/// Two threads write one global, and the first has not returned.
pub(crate) const CONFLICT: &str = "int g;
void w(int k) { g = k; }
int main(void) { g = 1; int t = spawn(w, 2); join(t); return 0; }
%%schedule 4096 1000
%%text
";

/// A signal that nobody waits for: the third event behind the start, without a line.
pub(crate) const SIGNAL: &str = "int main(void) {
  struct cond *c = malloc(sizeof(struct cond));
  print(1);
  signal(c);
  return 0;
}
%%schedule 4096 1000
%%text
";

/// A thread waits for a mutex that is never given back, and the first waits for its end.
pub(crate) const STUCK: &str = "mutex a;
void w(int k) { lock(&a); unlock(&a); }
int main(void) { lock(&a); int t = spawn(w, 0); join(t); return 0; }
%%schedule 4096 1000
%%text
";
