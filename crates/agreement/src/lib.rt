// RUN agrees with the published meaning of Simplicity's terms. No function.
#![tactic(auto)]
