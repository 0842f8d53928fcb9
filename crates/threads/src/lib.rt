// No code: what a chunk call reads and writes, for a host with threads.
