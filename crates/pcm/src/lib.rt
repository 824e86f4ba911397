// What the sound device means: the life of a PCM stream, one control message, lists of messages. Definitions and theorems, no code.
#![tactic(auto)]
